// Opening the fields of a file, one after another.
ghost use Rattle.blockfile.specs.Parts.{Opens};

use crate::fields::HEADER;
use crate::part::{Field, Part};
use fault::FieldFault;

impl<'a> Part<'a> {
    // Opens the field that is due: `tag`, a length of `size`, and as many bytes.
    pub(crate) fn open(self, tag: u8, size: usize) -> Result<Field<'a>, FieldFault>
        ensures { Opens self.entry tag size result }
    {
        let end = self.place + self.bytes.len();
        let [found, hi, lo, behind @ ..] = self.bytes else {
            return Err(FieldFault::Cut(end));
        };
        if *found != tag {
            return Err(FieldFault::Tag(self.place));
        }
        if usize::from(u16::from_be_bytes([*hi, *lo])) != size {
            return Err(FieldFault::Length(self.place + 1));
        }
        if behind.len() < size {
            return Err(FieldFault::Cut(end));
        }
        let place = self.place + HEADER;
        let (payload, rest) = behind.split_at(size);
        Ok(Field {
            payload: Part {
                place,
                bytes: payload,
            },
            rest: Part {
                place: place + size,
                bytes: rest,
            },
        })
    }
}
