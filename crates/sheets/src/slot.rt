//! A number or none, in two bytes.
ghost use Rattle.std.specs.Prelude.{◌≡◌, ◌<◌, Some};
ghost use Rattle.std.specs.Option.{unwrap_or};
ghost use Rattle.sheets.specs.Slots.{content, no_number};

/// A number or none. Tables of these are made on the stack for each search, trace and split.
#[derive(Clone, Copy)]
pub(crate) struct Slot {
    /// One more than the number, and 0 for none.
    // Kept: an `Option<u16>` takes four bytes. With tables of these, and a copy of the states' table in each split, the program needed
    // 180 KiB of stack in place of 128, and a small check two fifths more time.
    above: u16,
}

impl Slot {
    /// A slot without a number.
    pub(crate) fn empty() -> Slot
        ensures { result ≡ no_number }
    {
        Slot { above: 0 }
    }

    /// The number, if there is one.
    pub(crate) fn get(self) -> Option<u16>
        ensures { result ≡ content self }
    {
        self.above.checked_sub(1)
    }

    /// Puts a number in, and gives the slot as it was.
    pub(crate) fn replace(&mut self, number: u16) -> Slot
        requires { number < 4096 }
        ensures was { result ≡ self.old }
        ensures holds { content self.new ≡ Some number }
    {
        let was = *self;
        self.above = number + 1;
        was
    }

    /// The number, which is put in where there is none.
    pub(crate) fn get_or_insert(&mut self, number: u16) -> u16
        requires { number < 4096 }
        ensures value { result ≡ unwrap_or (content self.old) number }
        ensures holds { content self.new ≡ Some result }
    {
        match self.get() {
            Some(number) => number,
            None => {
                self.above = number + 1;
                number
            }
        }
    }
}
