//! The engines, each a run of steps.
pub(crate) mod check;
pub(crate) mod replay;
pub(crate) mod value;
