//! What an operation, a call or a throw does to paths.

use crate::gain::Gain;
use crate::written::Written;
use access_paths::Root;

/// What happens to the paths of a tuple: slots get other values, another root may go besides them, and paths are added.
#[derive(Clone, Copy)]
pub struct PathChange<'c> {
    pub written: Written<'c>,
    pub leaving: Option<Root>,
    pub gain: Gain<'c>,
}
