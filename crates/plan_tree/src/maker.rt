ghost use Rattle.std.specs.Prelude.{◌≡◌, length};
ghost use Rattle.store.specs.Checking.{Checked};
ghost use Rattle.plan_tree.specs.Making.{set_up_fault};

use design::{JudgeFault, SolverFault};
use job::{Maker, Unmade};
use judge::check_sizes;
use plain::Room;
use scales::{Hours, Needles};
use settling::Settling;
use solver::check_making;
use store::Sizes;
use tree::{Tree, choices_needed, room_needed};

// What the tree is made of: memory for its rules and prices, and its solver's store. 29,696 numbers
// serve four prices in each cost at 64 choices and 1,024 units of rules.
#[derive(Drop)]
pub struct TreeMaker<'a> {
    pub room: Room,
    pub cells: &'a mut [i16],
    ghost size: { length cells.now ≡ 29696 },
}

// Whether the store serves a solver of these sizes.
fn check_lent(choices: u16, room: usize) -> Result<Sizes, SolverFault>
    ensures { Checked choices room 29696 result }
{
    check_making(choices, room, 29696)?;
    Ok(Sizes { choices, room })
}

impl<'a> Maker for TreeMaker<'a> {
    type Judge = Tree<Hours, Needles, Settling<'a>>;

    ghost refusal = { set_up_fault 29696 };

    // The sizes are met first, and then the solver gets just the M and K that they need.
    fn make(
        self,
        choices: u8,
        price_room: u8,
        rule_room: u16,
    ) -> Result<Tree<Hours, Needles, Settling<'a>>, Unmade<TreeMaker<'a>>> {
        let sizes = match check_sizes(choices, price_room, rule_room) {
            Ok(sizes) => sizes,
            Err(fault) => return Err(Unmade { fault, maker: self }),
        };
        let needed = choices_needed::<Hours, Needles>(sizes);
        let numbers = room_needed::<Hours, Needles>(sizes);
        match check_lent(needed, numbers) {
            Ok(lent) => {
                let TreeMaker { room, cells } = self;
                Ok(Tree::new(room, sizes, Settling::new(lent, cells)))
            }
            Err(fault) => Err(Unmade {
                fault: JudgeFault::Solver(fault),
                maker: self,
            }),
        }
    }
}
