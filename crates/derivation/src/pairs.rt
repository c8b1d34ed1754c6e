// A stated pair: what is said of two variables.
use fields::Variable;
use table::Kinds;

#[derive(Clone, Copy, Default)]
pub struct Pair {
    pub kinds: Kinds,
    pub left: Variable,
    pub right: Variable,
}
