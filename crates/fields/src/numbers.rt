// The three sets of numbers of a sheet, kept apart by their types, and a place in it.
ghost use Rattle.std.specs.Prelude.{◌≡◌};

#[derive(Clone, Copy, Default, PartialEq, Eq, Debug)]
pub struct Variable(pub u8);

#[derive(Clone, Copy, Default, PartialEq, Eq, Debug)]
pub struct Feature(pub u16);

#[derive(Clone, Copy, Default, PartialEq, Eq, Debug)]
pub struct Label(pub u16);

impl Variable {
    // Its place in a row.
    pub fn index(self) -> usize
        ensures { result ≡ self.0 }
    {
        usize::from(self.0)
    }
}

// The offset of the next field.
#[derive(Clone, Copy, PartialEq, Eq, Debug)]
pub struct Cursor {
    pub at: usize,
}
