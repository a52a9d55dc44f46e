ghost use Rattle.std.specs.Prelude.{◌≡◌};
ghost use Rattle.decode.specs.declared.command.Command.TheVariants.{SetUp};
ghost use Rattle.planner.specs.Runs.{state_in};
ghost use Rattle.job.specs.declared.stage.Stage.TheVariants.{Waiting};
ghost use Rattle.job.specs.Performing.{call_of};
ghost use Rattle.job.specs.Stages.{KeepsOrder, Performs, Plays};

use crate::fault::JobFault;
use crate::maker::{Maker, Unmade};
use crate::stage::Stage;
use decode::Command;
use judge::Judge;
use planner::{Call, ListRoom, Outcome, Planner, PlannerFault, RuleMarks};

// The call of a planner that a command stands for; none for a set-up.
fn to_call(command: Command) -> Option<Call>
    ensures { result ≡ call_of command }
{
    match command {
        Command::SetUp { .. } => None,
        Command::Rule { count, marks } => Some(Call::Rule(RuleMarks { count, marks })),
        Command::PriceA { mark, place } => Some(Call::PriceA(mark, place)),
        Command::PriceB { mark, place } => Some(Call::PriceB(mark, place)),
        Command::Step => Some(Call::Step),
        Command::Restart => Some(Call::Restart),
        Command::Read { index } => Some(Call::Read(index)),
    }
}

// A command after an accepted set-up. A refusal of the planner is one of the job, number and layer kept.
fn call_planner<J: Judge>(planner: &mut Planner<J>, command: Command) -> Result<Outcome, JobFault>
    ensures plays { Plays J.Judge.scales (Some (state_in J.Judge.meaning planner.old)) (call_of command) result (Some (state_in J.Judge.meaning planner.new)) }
    ensures keeps_order { KeepsOrder planner.old (Some (state_in J.Judge.meaning planner.old)) (call_of command) result planner.new }
{
    let call = to_call(command).ok_or(JobFault::Order)?;
    let outcome = planner.call(call)?;
    Ok(outcome)
}

// A set-up, before one was accepted.
fn set_up<M: Maker>(
    maker: M,
    room: ListRoom,
    choices: u8,
    price_room: u8,
    rule_room: u16,
) -> (Stage<M>, Result<Outcome, JobFault>)
    ensures { Performs M.Judge.Judge.scales M.Judge.Judge.meaning M.Maker.refusal (Waiting maker room) (SetUp choices price_room rule_room) result.1 result.0 }
{
    match maker.make(choices, price_room, rule_room) {
        Ok(judge) => (Stage::Working(Planner::new(judge, room)), Ok(Outcome::Done)),
        Err(Unmade { fault, maker }) => {
            let fault = PlannerFault::from(fault);
            (Stage::Waiting(maker, room), Err(fault.into()))
        }
    }
}

// What a command does where the job stands, and what it answers.
pub fn perform<M: Maker>(stage: Stage<M>, command: Command) -> (Stage<M>, Result<Outcome, JobFault>)
    ensures { Performs M.Judge.Judge.scales M.Judge.Judge.meaning M.Maker.refusal stage command result.1 result.0 }
{
    match stage {
        Stage::Waiting(maker, room) => match command {
            Command::SetUp {
                choices,
                price_room,
                rule_room,
            } => set_up(maker, room, choices, price_room, rule_room),
            _ => (Stage::Waiting(maker, room), Err(JobFault::Order)),
        },
        Stage::Working(mut planner) => {
            let answer = call_planner(&mut planner, command);
            (Stage::Working(planner), answer)
        }
    }
}
