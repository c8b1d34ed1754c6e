// The two kinds of fact: i ≤ j and i ~ j.
#[derive(Clone, Copy, Debug, PartialEq, Eq)]
pub enum Kind {
    Ordered,
    Compatible,
}
