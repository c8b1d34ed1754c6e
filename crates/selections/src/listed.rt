// A selection of the list, which is in record order.
use fields::{Feature, Variable};

// subject[feature]child
#[derive(Clone, Copy, Default)]
pub struct Selection {
    pub subject: Variable,
    pub feature: Feature,
    pub child: Variable,
}
