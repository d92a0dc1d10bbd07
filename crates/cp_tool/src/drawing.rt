//! Drawing a leaf from a key's vault.
ghost use Rattle.std.specs.Prelude.{◌≡◌, ◌+◌, ◌<◌, Ok, Err, IfOk, MatchResult};
ghost use Rattle.key_vault.specs.Vaults.{disk_name, disk_of, vault_id, vault_leaves, vault_number};
ghost use Rattle.cp_endings.specs.View.{ending_view};
ghost use Rattle.cp_tool.specs.PutRuns.{DrawsLeaf};
ghost use Rattle.cp_tool.specs.ClientInputs.{OpensVault, leaf_answer, leaf_drawn, no_leaf};

use cp_endings::{ClientEnding, Ending};
use cp_outside::Disk;
use key_vault::{LeafRange, LoadFault, Refused, Vault, VaultFault};

// A leaf that was reserved, and the range of it alone.
#[derive(Drop)]
pub(crate) struct DrawnLeaf {
    pub(crate) leaf: u64,
    pub(crate) range: LeafRange,
}

// Why no leaf was drawn.
#[derive(Clone, Copy)]
enum NoLeaf {
    OtherKey,
    Damaged { reserved: u64, leaves: u64 },
    Over { reserved: u64, leaves: u64 },
    DiskFault,
}

impl NoLeaf {
    // How the command ends then.
    fn ending<'a>(self) -> Ending<'a>
        ensures { ending_view result ≡ no_leaf self }
    {
        match self {
            NoLeaf::OtherKey => Ending::Client(ClientEnding::OtherKey),
            NoLeaf::Damaged { reserved, leaves } => {
                Ending::Client(ClientEnding::Damaged { reserved, leaves })
            }
            NoLeaf::Over { reserved, leaves } => {
                Ending::Client(ClientEnding::Over { reserved, leaves })
            }
            NoLeaf::DiskFault => Ending::Fault,
        }
    }
}

// The vault of the key with this id and so many leaves. A blank one is made.
fn open_vault<'d, K: Disk>(
    disk: &'d mut K,
    id: [u8; 32],
    leaves: u64,
) -> Result<Vault<'d, K>, Refused<'d, K, NoLeaf>>
    ensures same_disk { MatchResult result
        (λ vault. disk_name vault ≡ disk.entry.ghost_name)
        (λ refused. refused.disk.ghost_name ≡ disk.entry.ghost_name) }
    ensures opens { MatchResult result
        (λ vault. OpensVault K.Disk id leaves disk.old (disk_of vault) (Ok (vault_number vault)))
        (λ refused. OpensVault K.Disk id leaves disk.old refused.disk.now (Err (no_leaf refused.why))) }
    ensures key { IfOk result (λ vault. (vault_id vault ≡ id) × (vault_leaves vault ≡ leaves)) }
{
    match Vault::load(disk, id, leaves) {
        Ok(vault) => Ok(vault),
        Err(Refused { disk, why }) => match why {
            LoadFault::Blank { .. } => match Vault::format(disk, id, leaves) {
                Ok(vault) => Ok(vault),
                Err(Refused { disk, .. }) => Err(Refused {
                    disk,
                    why: NoLeaf::DiskFault,
                }),
            },
            LoadFault::OtherKey => Err(Refused {
                disk,
                why: NoLeaf::OtherKey,
            }),
            LoadFault::Damaged { reserved, leaves } => Err(Refused {
                disk,
                why: NoLeaf::Damaged { reserved, leaves },
            }),
            LoadFault::DiskFault => Err(Refused {
                disk,
                why: NoLeaf::DiskFault,
            }),
        },
    }
}

// What came of drawing a leaf, and the disk, given back.
struct Drawing<'d, K: Disk> {
    disk: &'d mut K,
    answer: Result<DrawnLeaf, NoLeaf>,
}

impl<'d, K: Disk> Drawing<'d, K> {
    // The leaf, or how the command ends without one. The disk is left as it is.
    fn finish<'a>(self) -> Result<DrawnLeaf, Ending<'a>>
        ensures disk { self.exit.0.now ≡ self.entry.disk.now }
        ensures answer { leaf_answer result ≡ leaf_drawn self.entry.answer }
        ensures drawn { IfOk result (λ drawn. self.entry.answer ≡ Ok drawn) }
    {
        let Drawing {
            disk: _disk,
            answer,
        } = self;
        match answer {
            Ok(drawn) => Ok(drawn),
            Err(why) => Err(why.ending()),
        }
    }
}

// Reserves the next leaf of the key with this id and so many leaves.
fn draw_from<'d, K: Disk>(disk: &'d mut K, id: [u8; 32], leaves: u64) -> Drawing<'d, K>
    requires { 0 < leaves }
    ensures same_disk { result.disk.ghost_name ≡ disk.entry.ghost_name }
    ensures draws { DrawsLeaf K.Disk id leaves disk.old result.disk.now (leaf_drawn result.answer) }
    ensures one { IfOk result.answer (λ drawn. (drawn.range.from ≡ drawn.leaf)
        × (drawn.range.to ≡ drawn.leaf + 1) × (drawn.leaf < leaves)) }
    ensures key { IfOk result.answer (λ drawn. drawn.range.key ≡ id) }
{
    let vault = match open_vault(disk, id, leaves) {
        Ok(vault) => vault,
        Err(Refused { disk, why }) => {
            return Drawing {
                disk,
                answer: Err(why),
            };
        }
    };
    let leaf = vault.reserved();
    match vault.reserve(1) {
        Ok((vault, range)) => Drawing {
            disk: vault.into_disk(),
            answer: Ok(DrawnLeaf { leaf, range }),
        },
        Err(Refused { disk, why }) => match why {
            VaultFault::Over { reserved, leaves } => Drawing {
                disk,
                answer: Err(NoLeaf::Over { reserved, leaves }),
            },
            VaultFault::DiskFault => Drawing {
                disk,
                answer: Err(NoLeaf::DiskFault),
            },
        },
    }
}

// The next leaf of the key with this id and so many leaves, which is reserved.
pub(crate) fn draw_leaf<'a, K: Disk>(
    disk: &mut K,
    id: [u8; 32],
    leaves: u64,
) -> Result<DrawnLeaf, Ending<'a>>
    requires { 0 < leaves }
    ensures draws { DrawsLeaf K.Disk id leaves disk.old disk.new (leaf_answer result) }
    ensures one { IfOk result (λ drawn. (drawn.range.from ≡ drawn.leaf)
        × (drawn.range.to ≡ drawn.leaf + 1) × (drawn.leaf < leaves)) }
    ensures key { IfOk result (λ drawn. drawn.range.key ≡ id) }
{
    draw_from(disk, id, leaves).finish()
}
