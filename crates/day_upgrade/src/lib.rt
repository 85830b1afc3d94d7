// A day file of version 1 as one of version 2, with the same messages.
#![tactic(auto)]

ghost use Rattle.std.specs.Prelude.{◌≡◌, ◌<◌, length};
ghost use Rattle.std.specs.declared.result.Result.TheVariants.{Ok};
ghost use Rattle.buffer.specs.Put.{Put};
ghost use Rattle.ari.specs.Limits.{first_limits};
ghost use Rattle.day_file.specs.Day.{check_day, room_after};
ghost use Rattle.day_file.specs.Versions.{version1, version2};
ghost use Rattle.day_upgrade.specs.Upgrade.{upgraded, upgraded_by, upgrade_day};
ghost use Rattle.day_upgrade.specs.Code.{wide_offsets, rewritten};

use ari::{Fault, Refusal};
use day_file::Added;

// The table's offsets, of 2 bytes each, in 4.
#[tactic(auto, using(crate::proofs::Rewriting::rewritings))]
fn put_offsets(file: &[u8], count: usize, out: &mut [u8], at: usize) -> usize
    ensures { Put out.old out.new at result (wide_offsets file.now count) }
{
    let mut p = at;
    for k in 0..count {
        let offset = day_file::first_at(day_file::VERSION_1, file, k);
        p = buffer::put4(out, p, offset as u32);
    }
    p
}

// The messages as they stand, the table in wider offsets, another trailer.
#[tactic(auto, using(crate::proofs::Rewriting::rewritings))]
fn put_rewritten(file: &[u8], count: usize, start: usize, out: &mut [u8]) -> usize
    requires { (count < 65536) × (start < 65536) }
    ensures { Put out.old out.new 0 result (rewritten file.now count start) }
{
    let a = buffer::put_block(out, 0, day_file::part(file, 0, start));
    let b = put_offsets(file, count, out, a);
    day_file::put_trailer(day_file::VERSION_2, out, b, count as u16, start as u32)
}

#[tactic(auto, using(crate::proofs::Rewriting::upgradings))]
fn upgrade_checked(file: &[u8], count: usize, out: &mut [u8]) -> Result<Added, Refusal>
    requires { Ok count ≡ check_day version1 first_limits file.now }
    ensures value { result ≡ upgraded_by (Ok count) file.now (length out.old) }
    ensures out_after { out.new ≡ room_after result (upgraded file.now) out.old }
{
    let bytes = file.len() + 2 * count;
    if out.len() < bytes {
        return Err(Refusal {
            fault: Fault::NoRoom,
            place: bytes,
        });
    }
    // What is before the table: all but its entries and the trailer.
    let start = file.len() - 8 - 2 * count;
    put_rewritten(file, count, start, out);
    Ok(Added {
        messages: count,
        bytes,
    })
}

// The messages and bytes of the new file, in lent room; or the file's refusal, or 16.
#[tactic(auto, using(crate::proofs::Rewriting::upgrades))]
pub fn upgrade(file: &[u8], out: &mut [u8]) -> Result<Added, Refusal>
    ensures value { result ≡ upgrade_day file.now (length out.old) }
    ensures out_after { out.new ≡ room_after result (upgraded file.now) out.old }
{
    let count = day_file::check(day_file::VERSION_1, ari::FIRST_LIMITS, file)?;
    upgrade_checked(file, count, out)
}
