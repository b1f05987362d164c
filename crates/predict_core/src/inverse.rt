//! From mapped residuals to samples: a band over a run.

pub(crate) mod chain;
pub(crate) mod run;
