// A volume: an image that keeps every rule, opened for the calls. Each stage tests its groups and hands on to the next; the last one opens the volume.
#![tactic(auto)]

ghost use Rattle.format.specs.Rules.Version.{version_of};
ghost use Rattle.volume.specs.Opened.{OpenedRight};

use directory::Directory;
use header::{length_allowed, version_of, work_need};
use kinds::Refusal;
use le::zero_first;
use minis::Minis;
use table_stage::table_groups;
use tables::Tables;

pub mod entry_stage;
pub mod mini_stage;
pub mod owner_stage;
pub mod table_stage;

// Where everything stands: the FAT's sectors, the directory's, the mini FAT's and the mini stream's are listed in the work buffer.
#[derive(Clone, Copy)]
pub struct Volume {
    pub tables: Tables,
    pub directory: Directory,
    pub minis: Minis,
    pub stream: usize,
}

// Validates an image and opens it. A refusal leaves the work buffer as every refusal does.
pub fn open_volume(img: &[u8], work: &mut [u32]) -> Result<Volume, Refusal>
    ensures { OpenedRight (version_of img.now) img.now work.old work.new result }
{
    let g = version_of(img);
    let n = img.len();
    if !length_allowed(n, g) {
        return Err(Refusal::BadLength);
    }
    let need = work_need(n);
    if work.len() < need {
        return Err(Refusal::ShortWork);
    }
    let opened = table_groups(img, work, g);
    if opened.is_err() {
        zero_first(work, need);
    }
    opened
}
