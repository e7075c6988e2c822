// Bytes written one behind the other into a lent buffer.
// Which numbers and texts a line prints is decided in the crates above.
ghost use Rattle.std.specs.Prelude.{[], ◌∷◌, length};
ghost use Rattle.table.specs.Decimal.{decimal};

// A lent buffer, and the place in it at which the next byte is written.
#[derive(Drop)]
pub struct Writer<'a> {
    pub out: &'a mut [u8],
    pub at: usize,
}

impl<'a> Writer<'a> {
    ghost use Rattle.table_fields.specs.Writer.{HasRoom, Writes};

    pub fn byte(&mut self, byte: u8)
        requires { HasRoom self.old 1 }
        ensures { Writes self.old (byte ∷ []) self.new }
    {
        self.out[self.at] = byte;
        self.at += 1;
    }

    pub fn text(&mut self, text: &[u8])
        requires { HasRoom self.old (length text.now) }
        ensures { Writes self.old text.now self.new }
    {
        let end = self.at + text.len();
        self.out[self.at..end].copy_from_slice(text);
        self.at = end;
    }

    // The decimal digits of a number.
    // Kept: the library prints numbers through `fmt::Write`, whose contract lets a write fail, and this one cannot.
    pub fn decimal(&mut self, n: u64)
        requires { HasRoom self.old (length (decimal n)) }
        ensures { Writes self.old (decimal n) self.new }
    {
        if n >= 10 {
            self.decimal(n / 10);
        }
        self.byte(b'0' + (n % 10) as u8);
    }
}
