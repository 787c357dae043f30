//! What is said to refute a trace.

ghost use Rattle.std.specs.List.{AllByRecursion};
ghost use Rattle.std.specs.Prelude.{◌≡◌, ◌<◌, ◌^◌, IfOk, OnErr, if◌then◌else◌};
ghost use Rattle.refutation.specs.Refutations.{IsRefutation, may_add_block, may_add_command, of_lines};
ghost use Rattle.refutation.specs.Refutations.{is_before, is_behind, last_of, with_block, with_command};

use std::alloc::{AllocError as NoMemory, Global};
use std::marker::Model;

/// What is said to refute a trace: how many of its lines, and maybe a slice, that is blocks and commands by rising
/// numbers. A command is named by its submission queue and its entry there, from 0.
#[derive(Drop)]
pub struct Refutation {
    lines: u64,
    blocks: Vec<u64>,
    commands: Vec<(u16, u64)>,
}

impl Model for Refutation {
    ghost use Rattle.std.specs.Prelude.{◌≡◌, None, nat_lt, true};
    ghost use Rattle.refutation.specs.Refutations.{Refutation, is_before, rises};

    ghost Value = { Refutation };

    ghost view = { λ r. record { lines = r.lines; blocks = r.blocks.items; commands = r.commands.items } };

    ghost invariant = { λ r.
        (rises nat_lt None r.blocks.items ≡ true) × (rises is_before None r.commands.items ≡ true) };
}

impl Refutation {
    /// A refutation by the last of so many lines.
    pub fn of_lines(alloc: Global, lines: u64) -> Refutation
        ensures { result ≡ of_lines lines }
    {
        Refutation {
            lines,
            blocks: Vec::new(alloc),
            commands: Vec::new(alloc),
        }
    }

    /// How many lines of a trace it refutes.
    pub fn lines(&self) -> u64
        ensures { result ≡ self.now.lines }
    {
        self.lines
    }

    pub fn blocks(&self) -> &[u64]
        ensures { result.now ≡ self.now.blocks }
    {
        self.blocks.as_slice()
    }

    pub fn commands(&self) -> &[(u16, u64)]
        ensures { result.now ≡ self.now.commands }
    {
        self.commands.as_slice()
    }

    fn may_add_block(&self, block: u64) -> bool
        ensures { result ≡ may_add_block self.now block }
    {
        if !self.commands.as_slice().is_empty() {
            return false;
        }
        match self.blocks.as_slice().last() {
            Some(last) => *last < block,
            None => true,
        }
    }

    /// Adds a block, where it is above those that are there, and no command is there.
    ///
    /// # Errors
    ///
    /// `NoMemory`, and nothing is added.
    pub fn add_block(&mut self, block: u64) -> Result<bool, NoMemory>
        ensures added { IfOk result (λ added. added ≡ may_add_block self.old block) }
        ensures after { IfOk result
            (λ added. self.new ≡ (if added then with_block self.old block else self.old)) }
        ensures same { OnErr result (self.new ≡ self.old) }
    {
        if !self.may_add_block(block) {
            return Ok(false);
        }
        self.blocks.push(block)?;
        Ok(true)
    }

    fn may_add_command(&self, queue: u16, number: u64) -> bool
        ensures { result ≡ may_add_command self.now (queue, number) }
    {
        match self.commands.as_slice().last() {
            Some((last, entry)) => *last < queue || (*last == queue && *entry < number),
            None => true,
        }
    }

    /// Adds a command, where it comes behind those that are there.
    ///
    /// # Errors
    ///
    /// `NoMemory`, and nothing is added.
    pub fn add_command(&mut self, queue: u16, number: u64) -> Result<bool, NoMemory>
        ensures added { IfOk result (λ added. added ≡ may_add_command self.old (queue, number)) }
        ensures after { IfOk result
            (λ added. self.new ≡ (if added then with_command self.old (queue, number) else self.old)) }
        ensures same { OnErr result (self.new ≡ self.old) }
    {
        if !self.may_add_command(queue, number) {
            return Ok(false);
        }
        self.commands.push((queue, number))?;
        Ok(true)
    }

    /// That its numbers rise and have their bits, so that its text is read as it. Does nothing.
    pub fn fits(&self)
        ensures { IsRefutation self.now }
    {
        blocks_fit(self.blocks.as_slice());
        commands_fit(self.commands.as_slice());
        lines_fit(self.lines);
    }
}

fn blocks_fit(blocks: &[u64])
    ensures { AllByRecursion (λ b. b < 2 ^ 64) blocks.now }
{
    let _ = blocks;
}

fn lines_fit(lines: u64)
    ensures { lines < 2 ^ 64 }
{
    let _ = lines;
}

fn command_fits(queue: u16, number: u64)
    ensures { (queue < 2 ^ 16) × (number < 2 ^ 64) }
{
    let _ = queue;
    let _ = number;
}

fn commands_fit(commands: &[(u16, u64)])
    ensures { AllByRecursion (λ m. (m.0 < 2 ^ 16) × (m.1 < 2 ^ 64)) commands.now }
{
    for (queue, number) in commands {
        command_fits(*queue, *number);
    }
}
