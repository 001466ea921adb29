// The desk: the work buffer, with the numbers that fit it.
ghost use Rattle.workspace.specs.Work.{Good, good_prop};

use crate::Nums;

// The work buffer with the numbers that fit it.
#[derive(Drop)]
pub struct Desk<'a> {
    pub work: &'a mut [u8],
    pub nums: Nums,
    ghost good: { Good work.now nums } by { good_prop work.now nums },
}
