//! A file of rules.

use crate::misread::{Fault, LineError, at_fault, tell_misread, tell_whole};
use crate::words::{Word, words_of};
use action_script::words::cuts::cut_line;
use action_script::words::word::value_of;
use caa_base::written::entry::{Object, OutOfMemory};
use caa_base::written::limits::{MOST_LINE_BYTES, MOST_SCRIPT_BYTES};
use caa_base::written::rows::Rows;
use interlock_rules::rules::{Condition, Part, Rule, When};
use place_plan::plans::plan::Plan;
use rehearsals::paths::number_of;
use script_views::page::Piece;
use std::alloc::Global;

/// Rules of a file.
pub const MOST_RULES: usize = 256;

/// A rule, and the number of its line, counted from 1.
#[derive(Drop)]
pub struct RuleLine {
    pub number: u32,
    pub rule: Rule,
}

/// What the lines of a file of rules say.
#[derive(Drop)]
pub struct RulesFile {
    /// The objects of which it is taken for granted that the device takes each put.
    pub taken: Vec<Object>,
    pub rules: Vec<RuleLine>,
}

/// The rules of a text, or why it is refused, in lines of text.
#[derive(Drop)]
pub enum RulesRead {
    Read(RulesFile),
    Refused(Vec<u8>),
}

/// What a line says.
#[derive(Drop)]
enum Said {
    Nothing,
    Taken(Vec<Object>),
    Never(Rule),
}

// ---- objects, tests and parts

/// The object that a word names.
fn object_at<'a>(plan: &Plan, word: Word<'a>) -> Result<Object, LineError<'a>> {
    for object in 0..plan.objects() {
        if plan.object_name(object) == word.text {
            return Ok(object);
        }
    }
    Err(at_fault(word, Fault::UnknownObject))
}

/// The condition that a test and a number say.
fn condition_by<'a>(test: Word<'a>, number: i64) -> Result<Condition, LineError<'a>> {
    if test.is("equal") {
        Ok(Condition::Equal(number))
    } else if test.is("not") {
        Ok(Condition::Not(number))
    } else if test.is("below") {
        Ok(Condition::Below(number))
    } else if test.is("above") {
        Ok(Condition::Above(number))
    } else {
        Err(at_fault(test, Fault::NoTest))
    }
}

/// The condition that a test and the word behind it say.
fn condition_of<'a>(test: Word<'a>, number: Option<Word<'a>>) -> Result<Condition, LineError<'a>> {
    condition_by(test, 0)?;
    let Some(number) = number else {
        return Err(at_fault(test, Fault::NumberLeftOut));
    };
    match value_of(number.text) {
        Some(value) => condition_by(test, value),
        None => Err(at_fault(number, Fault::NoNumber)),
    }
}

/// The conditions that words say: tests, each with a number behind it.
fn conditions_of<'a>(alloc: Global, words: &[Word<'a>]) -> Result<Rows<Condition>, LineError<'a>> {
    let mut conditions = Vec::new(alloc);
    let mut test = None;
    for word in words {
        match test {
            Some(before) => {
                push_condition(&mut conditions, condition_of(before, Some(*word))?)?;
                test = None;
            }
            None => test = Some(*word),
        }
    }
    if let Some(last) = test {
        condition_of(last, None)?;
    }
    Ok(Rows::from_vec(conditions))
}

/// Adds a condition.
fn push_condition(
    conditions: &mut Vec<Condition>,
    condition: Condition,
) -> Result<(), OutOfMemory> {
    conditions.push(condition)?;
    Ok(())
}

/// The part that words say: an object with its tests. Behind this word it stands.
fn part_of<'a>(
    alloc: Global,
    plan: &Plan,
    before: Word<'a>,
    words: &[Word<'a>],
) -> Result<Part, LineError<'a>> {
    let Some((name, tests)) = words.split_first() else {
        return Err(at_fault(before, Fault::ObjectLeftOut));
    };
    let object = object_at(plan, *name)?;
    let conditions = conditions_of(alloc, tests)?;
    Ok(Part { object, conditions })
}

/// The part that words say, which has a test, and whose object has no part among these.
fn further_part_of<'a>(
    alloc: Global,
    plan: &Plan,
    before: Word<'a>,
    words: &[Word<'a>],
    parts: &[Part],
) -> Result<Part, LineError<'a>> {
    let part = part_of(alloc, plan, before, words)?;
    let name = words.first().copied().unwrap_or(before);
    if part.conditions.len() == 0 {
        return Err(at_fault(name, Fault::TestLeftOut));
    }
    if parts.iter().any(|other| other.object == part.object) {
        return Err(at_fault(name, Fault::ObjectTwice));
    }
    Ok(part)
}

/// How many words stand before the first comma.
fn length_of_group(words: &[Word]) -> usize {
    for (index, word) in words.iter().enumerate() {
        if word.is_comma() {
            return index;
        }
    }
    words.len()
}

/// What stands behind so many words.
fn words_from<'a, 'b>(words: &'b [Word<'a>], start: usize) -> &'b [Word<'a>] {
    &words[start.min(words.len())..]
}

/// The words up to the first comma.
fn first_group<'a, 'b>(words: &'b [Word<'a>]) -> &'b [Word<'a>] {
    words.get(..length_of_group(words)).unwrap_or(words)
}

/// The word before these, of words that stand behind this one.
fn word_before<'a>(first: Word<'a>, words: &[Word<'a>], start: usize) -> Word<'a> {
    match start.checked_sub(1) {
        Some(index) => words.get(index).copied().unwrap_or(first),
        None => first,
    }
}

/// The parts that words say, with a comma between each two. Behind this word they stand.
fn parts_of<'a>(
    alloc: Global,
    plan: &Plan,
    before: Word<'a>,
    words: &[Word<'a>],
) -> Result<Rows<Part>, LineError<'a>> {
    let mut parts = Vec::new(alloc);
    let mut start = 0usize;
    for _ in 0..words.len().saturating_add(1) {
        let group = first_group(words_from(words, start));
        let word = word_before(before, words, start);
        let part = further_part_of(alloc, plan, word, group, &parts)?;
        push_part(&mut parts, part)?;
        let end = start.saturating_add(group.len());
        if end >= words.len() {
            break;
        }
        start = end.saturating_add(1);
    }
    Ok(Rows::from_vec(parts))
}

/// Adds a part.
fn push_part(parts: &mut Vec<Part>, part: Part) -> Result<(), OutOfMemory> {
    parts.push(part)?;
    Ok(())
}

// ---- lines

/// The rule that is looked at as an object is asked, or moved: the words behind `asked` or `moved`, which is this word.
fn asked_rule<'a>(
    alloc: Global,
    plan: &Plan,
    word: Word<'a>,
    words: &[Word<'a>],
) -> Result<Rule, LineError<'a>> {
    let group = first_group(words);
    let asked = part_of(alloc, plan, word, group)?;
    let parts = match words_from(words, group.len()).split_first() {
        Some((comma, more)) => parts_of(alloc, plan, *comma, more)?,
        None => Rows::from_vec(Vec::new(alloc)),
    };
    let when = if word.is("asked") {
        When::Asked(asked)
    } else {
        When::Moved(asked)
    };
    Ok(Rule { when, parts })
}

/// The rule that the words behind `never` say, which is this word.
fn rule_of<'a>(
    alloc: Global,
    plan: &Plan,
    never: Word<'a>,
    words: &[Word<'a>],
) -> Result<Rule, LineError<'a>> {
    if let Some((word, more)) = words.split_first() {
        if word.is("asked") || word.is("moved") {
            return asked_rule(alloc, plan, *word, more);
        }
    }
    Ok(Rule {
        when: When::Always,
        parts: parts_of(alloc, plan, never, words)?,
    })
}

/// Adds the object that a word names.
fn push_object<'a>(
    objects: &mut Vec<Object>,
    plan: &Plan,
    word: Word<'a>,
) -> Result<(), LineError<'a>> {
    let object = object_at(plan, word)?;
    push_number(objects, object)?;
    Ok(())
}

/// Adds an object.
fn push_number(objects: &mut Vec<Object>, object: Object) -> Result<(), OutOfMemory> {
    objects.push(object)?;
    Ok(())
}

/// The objects that the words behind this one name.
fn objects_of<'a>(
    alloc: Global,
    plan: &Plan,
    before: Word<'a>,
    words: &[Word<'a>],
) -> Result<Vec<Object>, LineError<'a>> {
    if words.is_empty() {
        return Err(at_fault(before, Fault::ObjectLeftOut));
    }
    let mut objects = Vec::new(alloc);
    for word in words {
        push_object(&mut objects, plan, *word)?;
    }
    Ok(objects)
}

/// What the words of a line say.
fn said_by<'a>(alloc: Global, plan: &Plan, words: &[Word<'a>]) -> Result<Said, LineError<'a>> {
    let Some((first, more)) = words.split_first() else {
        return Ok(Said::Nothing);
    };
    if first.is("never") {
        Ok(Said::Never(rule_of(alloc, plan, *first, more)?))
    } else if first.is("taken") {
        Ok(Said::Taken(objects_of(alloc, plan, *first, more)?))
    } else if first.is("with") {
        objects_of(alloc, plan, *first, more)?;
        Ok(Said::Nothing)
    } else {
        Err(at_fault(*first, Fault::NoKind))
    }
}

/// The first word of a line; an empty one at its beginning where it has none.
fn beginning<'a>(words: &[Word<'a>]) -> Word<'a> {
    match words.first() {
        Some(word) => *word,
        None => Word {
            text: &[],
            column: 0,
        },
    }
}

/// Where a word has its first byte that stands in no line but in a comment.
fn odd_byte(word: &[u8]) -> Option<usize> {
    word.iter().position(|byte| *byte < 33 || *byte > 126)
}

/// What stands in some words from the first byte on that stands in no line but in a comment.
fn odd_word<'a>(words: &[Word<'a>]) -> Option<Word<'a>> {
    for word in words {
        if let Some(index) = odd_byte(word.text) {
            return Some(Word {
                text: word.text.get(index..).unwrap_or(word.text),
                column: word.column.saturating_add(index),
            });
        }
    }
    None
}

/// What a line says that has these words.
fn line_says<'a>(
    alloc: Global,
    plan: &Plan,
    line: &'a [u8],
    words: &[Word<'a>],
) -> Result<Said, LineError<'a>> {
    if words.is_empty() {
        return Ok(Said::Nothing);
    }
    if line.len() > MOST_LINE_BYTES {
        return Err(at_fault(beginning(words), Fault::TooLong));
    }
    if let Some(word) = odd_word(words) {
        return Err(at_fault(word, Fault::OddByte));
    }
    said_by(alloc, plan, words)
}

// ---- the file

/// Adds these objects.
fn add_objects(objects: &mut Vec<Object>, more: &[Object]) -> Result<(), OutOfMemory> {
    for object in more {
        objects.push(*object)?;
    }
    Ok(())
}

impl RulesFile {
    /// Adds what a line says, which begins with this word.
    fn add<'a>(&mut self, number: u32, first: Word<'a>, said: Said) -> Result<(), LineError<'a>> {
        match said {
            Said::Nothing => Ok(()),
            Said::Taken(objects) => {
                add_objects(&mut self.taken, &objects)?;
                Ok(())
            }
            Said::Never(_) if self.rules.len() >= MOST_RULES => {
                Err(at_fault(first, Fault::TooMany))
            }
            Said::Never(rule) => {
                self.add_rule(RuleLine { number, rule })?;
                Ok(())
            }
        }
    }

    /// Adds a rule.
    fn add_rule(&mut self, rule: RuleLine) -> Result<(), OutOfMemory> {
        self.rules.push(rule)?;
        Ok(())
    }

    /// Reads a line, and adds what it says.
    fn read_line<'a>(
        &mut self,
        alloc: Global,
        plan: &Plan,
        number: u32,
        line: &'a [u8],
    ) -> Result<(), LineError<'a>> {
        let words = words_of(alloc, line)?;
        let said = line_says(alloc, plan, line, &words)?;
        self.add(number, beginning(&words), said)
    }
}

/// Reads all lines of a text.
fn read_lines(
    alloc: Global,
    plan: &Plan,
    file: &[u8],
    text: &[u8],
) -> Result<RulesRead, OutOfMemory> {
    let mut rules = RulesFile {
        taken: Vec::new(alloc),
        rules: Vec::new(alloc),
    };
    let mut rest = text;
    for index in 0..text.len() {
        if rest.is_empty() {
            break;
        }
        let (line, more) = cut_line(rest);
        let number = number_of(index.saturating_add(1));
        match rules.read_line(alloc, plan, number, line) {
            Ok(()) => {}
            Err(LineError::OutOfMemory) => return Err(OutOfMemory),
            Err(LineError::Misread(why)) => {
                let told = tell_misread(alloc, plan, file, text, number, why)?;
                return Ok(RulesRead::Refused(told));
            }
        }
        rest = more;
    }
    Ok(RulesRead::Read(rules))
}

/// The rules of a file, which is refused where there are none.
fn some_rules(alloc: Global, file: &[u8], rules: RulesFile) -> Result<RulesRead, OutOfMemory> {
    if !rules.rules.is_empty() {
        return Ok(RulesRead::Read(rules));
    }
    let pieces = [Piece::Text("no line is a rule: one begins with never")];
    let told = tell_whole(alloc, file, "empty", &pieces)?;
    Ok(RulesRead::Refused(told))
}

/// Reads a file of rules over the objects of a plan. Where it is refused, the first line that is wrong is told with what was wanted there
/// and what was found; `file` is what the text is called in that.
pub fn read_rules(
    alloc: Global,
    plan: &Plan,
    file: &[u8],
    text: &[u8],
) -> Result<RulesRead, OutOfMemory> {
    if text.len() as u64 > MOST_SCRIPT_BYTES {
        let pieces = [
            Piece::Text("the rules have "),
            Piece::Number(text.len() as u64),
            Piece::Text(" bytes, and may have "),
            Piece::Number(MOST_SCRIPT_BYTES),
        ];
        let told = tell_whole(alloc, file, Fault::TooLong.phrase(), &pieces)?;
        return Ok(RulesRead::Refused(told));
    }
    match read_lines(alloc, plan, file, text)? {
        RulesRead::Refused(why) => Ok(RulesRead::Refused(why)),
        RulesRead::Read(rules) => some_rules(alloc, file, rules),
    }
}
