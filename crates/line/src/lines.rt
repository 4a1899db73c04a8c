// Lines one after the other.
ghost use Rattle.std.specs.Prelude.{◌≡◌, ◌∷◌, [], Ok};
ghost use Rattle.line.specs.Lines.{ended};
ghost use Rattle.fields.specs.Outcomes.{over};
ghost use Rattle.line.specs.Conditions.{LinesFit, line_from, lines_from, GoesOn};

use crate::{Blank, COLUMNS};

// What is not read yet: the bytes from a line on, the numbers of that line and of its first field, and the field that may be blank.
#[derive(Clone, Copy)]
pub struct Unread<'a> {
    pub bytes: &'a [u8],
    pub line: u64,
    pub field: usize,
    pub blank: Option<Blank>,
}

impl<'a> Unread<'a> {
    // The next line, of `count` fields. The line's number, if it is wrong or missing; the numbers before its first wrong field are
    // written at the front of `fields`.
    pub fn read_line(&mut self, count: usize, fields: &mut [u64]) -> Result<(), u64>
        requires { LinesFit (count ∷ []) self.old fields.old }
        ensures value { GoesOn (line_from self.old count) (count ∷ []) self.old self.new result }
        ensures fields_after { fields.new ≡ over (line_from self.old count).numbers fields.old }
    {
        if !crate::read_line(self.bytes, self.blank, count, self.field, fields) {
            return Err(self.line);
        }
        self.bytes = &self.bytes[COLUMNS * count + 1..];
        self.line += 1;
        self.field += count;
        Ok(())
    }

    // The next lines, of `counts` fields each. The first wrong or missing line, if there is one; the numbers before the first wrong
    // field are written at the front of `fields`.
    pub fn read_lines(&mut self, counts: &[usize], fields: &mut [u64]) -> Result<(), u64>
        requires { LinesFit counts.now self.old fields.old }
        ensures value { GoesOn (lines_from self.old counts.now) counts.now self.old self.new result }
        ensures fields_after { fields.new ≡ over (lines_from self.old counts.now).numbers fields.old }
    {
        // The rest of the numbers is lent to each line, the form that document 01 names for rows.
        let mut read = 0usize;
        for &count in counts {
            self.read_line(count, &mut fields[read..])?;
            read += count;
        }
        Ok(())
    }

    // The line behind the last due one, if there are bytes left.
    pub fn end(&self) -> Result<(), u64>
        ensures { result ≡ ended self.now.line (Ok self.now.bytes.now) }
    {
        if self.bytes.is_empty() {
            Ok(())
        } else {
            Err(self.line)
        }
    }
}
