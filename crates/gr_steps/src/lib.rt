//! The steps by which events are handled: which event may be handled next, and which barriers may meet, after the events that are handled
//! already. The laws say that such an order stays lawful, and that it has every grounded event where no step is left. ("Taken" means that a
//! record was received, "handled" that the order has it.)
#![tactic(auto)]

pub mod laws;
