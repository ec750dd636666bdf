//! What a script says of the outside of a run.

ghost use Rattle.std.specs.Prelude.{◌≡◌, ◌++◌, IfOk, OnOk};
ghost use Rattle.portal_model.specs.Opening.{each};
ghost use Rattle.script_form.specs.Outside.{told_of, word_in, tree_call_in, keeper_call_in};

use portal_base::list::List;
use portal_base::memory::WantOfMemory;
use script_lines::script::{Device, Script, ScriptLine};
use std::alloc::Global;

/// What a script says of the words and of the devices of its run.
#[derive(Debug, Drop)]
pub struct ToldOutside {
    /// The words that new documents draw their numbers from, in order.
    pub words: List<u32>,
    /// The numbers of the tree's calls that fail, from 1.
    pub tree_fails: List<u64>,
    /// The numbers of the keeper's calls that fail, from 1. Its first call is
    /// that which loads the records.
    pub keeper_fails: List<u64>,
}

/// What a script says of the words and of the devices of its run.
pub fn outside_of(alloc: Global, script: &Script) -> Result<ToldOutside, WantOfMemory>
    ensures { IfOk result (λ told. told ≡ told_of script.now.lines) }
{
    let lines = script.lines.as_slice();
    Ok(ToldOutside {
        words: words_in(alloc, lines)?,
        tree_fails: tree_calls_in(alloc, lines)?,
        keeper_fails: keeper_calls_in(alloc, lines)?,
    })
}

/// The words of lines.
fn words_in(alloc: Global, lines: &[ScriptLine]) -> Result<List<u32>, WantOfMemory>
    ensures { IfOk result (λ words. words ≡ each word_in lines.now) }
{
    let mut words = List::new(alloc);
    for line in lines {
        add_word(&mut words, line)?;
    }
    Ok(words)
}

/// Adds the word of a line.
fn add_word(words: &mut List<u32>, line: &ScriptLine) -> Result<(), WantOfMemory>
    ensures { OnOk result (words.new ≡ words.old ++ word_in line.now) }
{
    match line {
        ScriptLine::Word { word } => words.push(*word),
        _ => Ok(()),
    }
}

/// The calls of the tree that lines make fail.
fn tree_calls_in(alloc: Global, lines: &[ScriptLine]) -> Result<List<u64>, WantOfMemory>
    ensures { IfOk result (λ calls. calls ≡ each tree_call_in lines.now) }
{
    let mut calls = List::new(alloc);
    for line in lines {
        add_tree_call(&mut calls, line)?;
    }
    Ok(calls)
}

/// Adds the call of the tree that a line makes fail.
fn add_tree_call(calls: &mut List<u64>, line: &ScriptLine) -> Result<(), WantOfMemory>
    ensures { OnOk result (calls.new ≡ calls.old ++ tree_call_in line.now) }
{
    match line {
        ScriptLine::Fail {
            device: Device::Tree,
            call,
        } => calls.push(*call),
        _ => Ok(()),
    }
}

/// The calls of the keeper that lines make fail.
fn keeper_calls_in(alloc: Global, lines: &[ScriptLine]) -> Result<List<u64>, WantOfMemory>
    ensures { IfOk result (λ calls. calls ≡ each keeper_call_in lines.now) }
{
    let mut calls = List::new(alloc);
    for line in lines {
        add_keeper_call(&mut calls, line)?;
    }
    Ok(calls)
}

/// Adds the call of the keeper that a line makes fail.
fn add_keeper_call(calls: &mut List<u64>, line: &ScriptLine) -> Result<(), WantOfMemory>
    ensures { OnOk result (calls.new ≡ calls.old ++ keeper_call_in line.now) }
{
    match line {
        ScriptLine::Fail {
            device: Device::Keeper,
            call,
        } => calls.push(call.saturating_add(1)),
        _ => Ok(()),
    }
}
