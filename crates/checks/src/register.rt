// The FCS, the check of the point line.
ghost use Rattle.std.specs.Prelude.{◌≡◌};
ghost use Rattle.checks.specs.Fcs.{residue as residue_of, fcs as fcs_of};

use crate::table::TABLE;

// The register after these bytes, not inverted: F0B8 after content with its FCS. Never inlined, so that LLVM sees where it is asked twice of the same
// bytes, and works it out once.
#[inline(never)]
pub fn residue(bytes: &[u8]) -> u16
    ensures { result ≡ residue_of bytes.now }
{
    let mut register: u16 = 0xFFFF;
    for &byte in bytes {
        let k = ((byte as u16 ^ register) % 256) as usize;
        register = TABLE[k] ^ register / 256;
    }
    register
}

// The FCS of these bytes. It travels low byte first.
#[tactic(auto, unfolding(crate::specs::Fcs::fcs))]
pub fn fcs(bytes: &[u8]) -> u16
    ensures { result ≡ fcs_of bytes.now }
{
    residue(bytes) ^ 0xFFFF
}
