// The pair at which the statements clash.
use sheet::Variable;

#[derive(Clone, Copy, Debug, PartialEq, Eq)]
pub struct Clash {
    pub first: Variable,
    pub second: Variable,
}
