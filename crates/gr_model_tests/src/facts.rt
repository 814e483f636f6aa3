//! What the contracts alone say of some values. A wrong body would say something else of them.

mod barriers;
mod clocks;
mod model;
mod scopes;
mod shadow;
