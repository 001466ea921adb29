// Lent buffers: copying, pieces one behind the other, and numbers in bytes.

#![tactic(auto)]

mod copying; // bytes copied to a place
mod numbers; // u16 and u32, low byte first
mod pieces; // bytes put to a place, and where they end

pub use copying::put;
pub use numbers::{u16_at, u32_at};
pub use pieces::put_bytes;
