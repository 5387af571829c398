ghost use Rattle.std.specs.Prelude.{◌≡◌, ◌<◌, ◌∷◌, true, length, option_map};
ghost use Rattle.journal_text.specs.Texts.Text.{object_name, watched_object};
ghost use Rattle.journal_text.specs.Texts.Naming.{is_well_named, watch_in};
ghost use Rattle.journal_text.specs.inner.TextSteps.{SeenFound};
ghost use Rattle.journal_text.specs.inner.Tokens.{TokenRead};

use crate::looks::seens::Seen;
use crate::texts::text_writer::object_name;
use crate::texts::tokens::{after_byte, after_front, number_at, value_at, word_after_space};
use place_plan::plans::plan::Plan;

/// The look whose line a text begins with, where its watch is none before the least, and the rest of the text.
pub fn seen_at<'a>(plan: &Plan, least: u32, text: &'a [u8]) -> Option<(Seen, &'a [u8])>
    requires { is_well_named plan.now ≡ true }
    ensures { SeenFound plan.now least text.now (option_map (λ r. (r.0, r.1.now)) result) }
{
    let fields = after_front(text, b"seen")?;
    let (watch, text) = watch_at(plan, fields)?;
    let (ends, text) = number_at(text, u64::MAX)?;
    let (value, text) = value_at(text)?;
    let rest = after_byte(text, b'\n')?;
    if watch < least {
        return None;
    }
    Some((Seen { watch, ends, value }, rest))
}

/// The watch whose object's name stands after a space.
fn watch_at<'a>(plan: &Plan, text: &'a [u8]) -> Option<(u32, &'a [u8])>
    requires { is_well_named plan.now ≡ true }
    ensures { TokenRead (λ r. r.now) (λ w. w < length plan.now.watches) (λ w. 32 ∷ object_name plan.now (watched_object plan.now w))
        text.now result }
{
    let (word, rest) = word_after_space(text)?;
    let watch = watch_in(plan, word);
    if watch < plan.watches() {
        Some((watch, rest))
    } else {
        None
    }
}

/// The watch whose object has this name, or a number past the last one.
pub fn watch_in(plan: &Plan, word: &[u8]) -> u32
    ensures { result ≡ watch_in plan.now word.now }
{
    for watch in 0..plan.watches() {
        if watched_name(plan, watch) == word {
            return watch;
        }
    }
    plan.watches()
}

/// The name of the object of a watch.
pub fn watched_name(plan: &Plan, watch: u32) -> &[u8]
    requires { watch < length plan.now.watches }
    ensures { result.now ≡ object_name plan.now (watched_object plan.now watch) }
{
    object_name(plan, plan.watch(watch))
}
