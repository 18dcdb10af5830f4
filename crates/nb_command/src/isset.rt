//! `isset [word]`: true where the word is there and isn't empty.

ghost use Rattle.std.specs.Prelude.{◌≡◌};
ghost use Rattle.nb_command.specs.Plans.{PlansAs};
ghost use Rattle.nb_command.specs.Isset.{isset_plan, is_word_set};

use crate::words::is_option;
use crate::{CommandPlan, PlanError};
use nb_imagecmd::copy_word;
use nb_wire::Word;
use std::alloc::Global;

#[tactic(auto, unfolding(crate::specs::Isset::isset_plan))]
pub(crate) fn plan_isset(alloc: Global, args: &[Word]) -> Result<CommandPlan, PlanError>
    ensures { PlansAs result (isset_plan args.now) }
{
    match args {
        [] => Ok(CommandPlan::Isset(None)),
        [word] if !is_option(word) => Ok(CommandPlan::Isset(Some(copy_word(alloc, word)?))),
        _ => Err(PlanError::Usage),
    }
}

pub(crate) fn is_word_set(word: &Option<Word>) -> bool
    ensures { result ≡ is_word_set word.now }
{
    match word {
        Some(word) => word.len() > 0,
        None => false,
    }
}
