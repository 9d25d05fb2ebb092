// A page is lent bytes and the place where the next byte goes.
ghost use Rattle.std.specs.Prelude.{◌≡◌, [], ◌∷◌, take};
ghost use Rattle.text.specs.Page.{Put, Blank};

#[derive(Drop)]
pub struct Page<'a> {
    pub bytes: &'a mut [u8],
    pub place: usize,
}

impl<'a> Page<'a> {
    // A page over these bytes, on which nothing stands yet.
    pub fn new(bytes: &'a mut [u8]) -> Page<'a>
        ensures blank { Blank bytes.old result }
        ensures same { result.bytes.ghost_name ≡ bytes.entry.ghost_name }
    {
        Page { bytes, place: 0 }
    }

    // What stands on it.
    pub fn text(&self) -> &[u8]
        ensures { result.now ≡ take self.now.place self.now.bytes.now }
    {
        &self.bytes[..self.place.min(self.bytes.len())]
    }

    // A page that is full takes no more: its bytes and its place stay.
    pub fn put_byte(&mut self, b: u8)
        ensures { Put self.old (b ∷ []) self.new }
    {
        if self.place < self.bytes.len() {
            self.bytes[self.place] = b;
            self.place += 1;
        }
    }

    pub fn put_text(&mut self, text: &[u8])
        ensures { Put self.old text.now self.new }
    {
        for b in text {
            self.put_byte(*b);
        }
    }
}
