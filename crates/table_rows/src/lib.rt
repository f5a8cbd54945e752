//! What each row of the protocol's table does if its tests hold, as an equation.
#![tactic(auto)]
