// Numbers in decimal, and bytes in upper-case hex.
ghost use Rattle.std.specs.Prelude.{◌≡◌, ◌<◌};
ghost use Rattle.text.specs.Page.{Put};
ghost use Rattle.text.specs.Digits.{digit_of, decimal, hex, hexes};

use super::page::Page;

fn digit(d: u8) -> u8
    requires { d < 16 }
    ensures { result ≡ digit_of d }
{
    if d < 10 { b'0' + d } else { b'A' + (d - 10) }
}

impl Page<'_> {
    pub fn put_decimal(&mut self, n: u64)
        ensures { Put self.old (decimal n) self.new }
    {
        if n < 10 {
            self.put_byte(digit(n as u8));
        } else {
            self.put_decimal(n / 10);
            self.put_byte(digit((n % 10) as u8));
        }
    }

    // The two digits of a byte.
    pub fn put_pair(&mut self, b: u8)
        ensures { Put self.old (hex b) self.new }
    {
        self.put_byte(digit(b / 16));
        self.put_byte(digit(b % 16));
    }

    // Two digits for each byte, nothing between them.
    pub fn put_hex(&mut self, bytes: &[u8])
        ensures { Put self.old (hexes bytes.now) self.new }
    {
        for b in bytes {
            self.put_pair(*b);
        }
    }
}
