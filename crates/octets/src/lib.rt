// Octets: numbers in them, masking, copying. Each function says what it gives by a definition in specs/.
#![tactic(auto)]

pub mod copy;
pub mod mask;
pub mod read;
