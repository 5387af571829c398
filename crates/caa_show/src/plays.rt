//! Views of plays: a script is played by schedules, before the machine moves.

use crate::showing::{Shown, Status, with_status};
use crate::words::USAGE;
use action_script::forms::script::Script;
use action_script::words::journal_start::find_journal;
use caa_base::written::entry::OutOfMemory;
use fault_trials::trials::Progress;
use fault_views::asking::{FaultsTold, show_faults};
use place_plan::plans::plan::Plan;
use rehearsal_views::asking::{Told, show_playing, show_rehearsal};
use script_checker::lines::{Lines, lines_of};
use script_views::explaining::{Seen, look};
use script_views::page::{Page, Piece};
use std::alloc::Global;

/// A view of plays.
#[derive(Clone, Copy)]
pub enum PlayView {
    /// What comes by so many schedules.
    Rehearse,
    /// What comes of each put that is refused.
    Faults,
    /// The journal of one schedule.
    Playing,
}

/// A view of plays that is asked for, with the file that is read, none for standard input, which `-` stands for, and the words behind it.
#[derive(Clone, Copy)]
pub struct PlayCall<'a> {
    pub view: PlayView,
    pub file: Option<&'a str>,
    pub words: &'a [String],
}

/// The view of plays of a word.
fn play_view_of(word: &str) -> Option<PlayView> {
    match word {
        "rehearse" => Some(PlayView::Rehearse),
        "faults" => Some(PlayView::Faults),
        "playing" => Some(PlayView::Playing),
        _ => None,
    }
}

/// The view of plays that these words ask for.
pub fn play_asked(words: &[String]) -> Option<PlayCall> {
    let (view, rest) = words.split_first()?;
    let view = play_view_of(view.as_str())?;
    Some(match rest.split_first() {
        Some((file, words)) => PlayCall {
            view,
            file: Some(file.as_str()).filter(|file| *file != "-"),
            words,
        },
        None => PlayCall {
            view,
            file: None,
            words: rest,
        },
    })
}

/// A script that would be played too long.
pub fn too_many(alloc: Global, file: &[u8], most: u64) -> Result<Shown, OutOfMemory> {
    let mut page = Page::new(alloc, &[]);
    page.say(&[Piece::Word(file)])?;
    if most == 0 {
        page.say(&[Piece::Text(": the script has too many plays to be played here\n")])?;
    } else {
        page.say(&[
            Piece::Text(": that would take too long: "),
            Piece::Number(most),
            Piece::Text(" schedules at most for this script\n"),
        ])?;
    }
    Ok(with_status(Status::Refused, page.into_text()))
}

/// What a view told, with its status.
fn shown_of(alloc: Global, file: &[u8], told: Told) -> Result<Shown, OutOfMemory> {
    match told {
        Told::Page { text, is_bad } => {
            let status = if is_bad { Status::Found } else { Status::Done };
            Ok(with_status(status, text))
        }
        Told::TooMany { most } => too_many(alloc, file, most),
        Told::BadWords => Ok(with_status(Status::Usage, Vec::from_slice(alloc, USAGE)?)),
    }
}

/// What a table of faults came to, with its status.
fn shown_faults(alloc: Global, file: &[u8], told: FaultsTold) -> Result<Shown, OutOfMemory> {
    match told {
        FaultsTold::Told(told) => shown_of(alloc, file, told),
        FaultsTold::WentAnotherWay => {
            let mut page = Page::new(alloc, &[]);
            page.say(&[
                Piece::Word(file),
                Piece::Text(
                    ": a schedule went another way before the put that was refused, which is a mistake of this program\n",
                ),
            ])?;
            Ok(with_status(Status::Illegal, page.into_text()))
        }
    }
}

/// What a view of plays shows of a script.
fn show_script<P: Progress>(
    alloc: Global,
    call: &PlayCall,
    scene: Played,
    file: &[u8],
    text: &[u8],
    progress: &mut P,
) -> Result<Shown, OutOfMemory> {
    let Played {
        script,
        lines,
        plan,
    } = scene;
    match call.view {
        PlayView::Rehearse => {
            let told = show_rehearsal(alloc, &script, &lines, plan, file, call.words)?;
            shown_of(alloc, file, told)
        }
        PlayView::Faults => {
            let told = show_faults(alloc, &script, &lines, plan, file, call.words, progress)?;
            shown_faults(alloc, file, told)
        }
        PlayView::Playing => {
            let told = show_playing(alloc, &script, plan, text, call.words)?;
            shown_of(alloc, file, told)
        }
    }
}

/// A script that is played, with its plan, and where it declares the parts of that.
#[derive(Drop)]
struct Played {
    script: Script,
    lines: Lines,
    plan: Plan,
}

/// What a view of plays shows of an input. Who waits is told how far it has come.
pub fn show_plays<P: Progress>(
    alloc: Global,
    call: &PlayCall,
    file: &[u8],
    bytes: &[u8],
    progress: &mut P,
) -> Result<Shown, OutOfMemory> {
    let start = find_journal(bytes);
    let text = bytes.get(..start.offset).unwrap_or(bytes);
    match look(alloc, file, text)? {
        Seen::Accepted(script, plan) => {
            let lines = lines_of(alloc, &script, &plan)?;
            let scene = Played {
                script,
                lines,
                plan,
            };
            show_script(alloc, call, scene, file, text, progress)
        }
        Seen::Refused(refusal) => Ok(with_status(Status::Refused, refusal.text)),
    }
}
