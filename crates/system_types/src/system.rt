//! A system, with the facts that hold of it.
ghost use Rattle.std.specs.Prelude.{◌≡◌, ◌<◌, ℕ, List, All, IfOk, IfSome, IsSome, length, position};
ghost use Rattle.std.specs.List.{AllByRecursion};
ghost use Rattle.std.specs.Option.{option_copied, option_map};
ghost use Rattle.std.specs.Str.{bytes_eq};
ghost use Rattle.tm_types.specs.Name.{IsName};
ghost use Rattle.model_system.specs.Codes.{code_at, code_place};
ghost use Rattle.model_system.specs.FormatRule.{KeepsRule};
ghost use Rattle.model_system.specs.SystemFormats.{format_of};
ghost use Rattle.model_system.specs.Jobs.{job_of};
ghost use Rattle.system_types.specs.Parts.{system_of_parts};
ghost use Rattle.system_types.specs.Jobs.{lent_job};
ghost use Rattle.system_types.specs.ValidSystem.{IsPadLength, IsSentTo, IsServable, IsSystem};

use crate::Job;
use crate::formats::{format_name, format_named};
use crate::indexes::{code_at, codes_by_name, program_at, program_places, terminals_by_name};
use crate::job::job_of;
use model_system::{Classes, Code, Format, Screen, SystemFormat, SystemProgram};
use std::alloc::{AllocError, Global};
use std::collections::BTreeMap;
use std::marker::Model;
use tm_types::{Dbd, Name};

/// What a system is made of. Its lists have the order of the definition's lines.
#[derive(Debug, Drop)]
pub struct SystemParts {
    /// The bytes of the queues.
    pub qbytes: u32,
    /// The sectors of a log area.
    pub logs: u32,
    pub databases: Vec<Dbd>,
    pub programs: Vec<SystemProgram>,
    pub codes: Vec<Code>,
    pub terminals: Vec<Name>,
    /// The terminals that have a format.
    pub screens: Vec<Screen>,
    pub formats: Vec<SystemFormat>,
    pub regions: Vec<Classes>,
}

/// What a definition defines. Its lists have the order of the lines.
#[derive(Debug, Drop)]
pub struct System {
    parts: SystemParts,
    codes_by_name: BTreeMap<Name, usize>,
    terminals_by_name: BTreeMap<Name, usize>,
    /// For each code the place of its program.
    program_places: Vec<usize>,
}

impl Model for System {
    ghost use Rattle.std.specs.Prelude.{◌≡◌, map};
    ghost use Rattle.model_system.specs.System as model;
    ghost use Rattle.system_types.specs.Indexes.{AreItemsNamed, IsIndex, has_code_name, has_terminal_name, program_place};
    ghost use Rattle.system_types.specs.Parts.{system_of_parts};
    ghost use Rattle.system_types.specs.ValidSystem.{IsSystem};

    ghost Value = { model.System };

    ghost view = { λ s. system_of_parts s.parts };

    ghost invariant = { λ s. IsSystem (system_of_parts s.parts) × IsIndex has_code_name s.codes_by_name s.parts.codes.items × IsIndex has_terminal_name s.terminals_by_name s.parts.terminals.items × (s.program_places.items ≡ map (program_place s.parts.programs.items) s.parts.codes.items) × AreItemsNamed (λ code. code.transaction.code) s.parts.codes.items × AreItemsNamed (λ name. name) s.parts.terminals.items };
}

impl System {
    /// The system of these parts.
    pub fn new(alloc: Global, parts: SystemParts) -> Result<System, AllocError>
        requires { IsSystem (system_of_parts parts) }
        ensures { IfOk result (λ system. system ≡ system_of_parts parts) }
    {
        let codes_by_name = codes_by_name(alloc, &parts.codes)?;
        let terminals_by_name = terminals_by_name(alloc, &parts.terminals)?;
        let program_places = program_places(alloc, &parts.codes, &parts.programs)?;
        Ok(System {
            parts,
            codes_by_name,
            terminals_by_name,
            program_places,
        })
    }

    /// The bytes of the queues.
    pub fn qbytes(&self) -> u32
        ensures value { result ≡ self.now.qbytes }
        ensures valid { IsSystem self.now }
    {
        self.parts.qbytes
    }

    /// The sectors of a log area.
    pub fn logs(&self) -> u32
        ensures value { result ≡ self.now.logs }
        ensures valid { IsSystem self.now }
    {
        self.parts.logs
    }

    /// The databases, numbered from 1 in their order.
    pub fn databases(&self) -> &[Dbd]
        ensures value { result.now ≡ self.now.databases }
        ensures valid { IsSystem self.now }
    {
        &self.parts.databases
    }

    /// The programs, in the order of their PROGRAM lines.
    pub fn programs(&self) -> &[SystemProgram]
        ensures value { result.now ≡ self.now.programs }
        ensures valid { IsSystem self.now }
    {
        &self.parts.programs
    }

    /// The transaction codes.
    pub fn codes(&self) -> &[Code]
        ensures value { result.now ≡ self.now.codes }
        ensures named { AllByRecursion (λ code. IsName code.transaction.code) self.now.codes }
        ensures valid { IsSystem self.now }
    {
        &self.parts.codes
    }

    /// The code of this name, or None where there is none.
    #[tactic(auto, using(crate::proofs::Indexed::found_at, crate::proofs::Served::code_padded))]
    pub fn code(&self, name: &Name) -> Option<&Code>
        ensures value { option_copied result ≡ code_at self.now.codes name.now }
        ensures pad { IfSome result (λ code. IsPadLength code.now.transaction.scratch_pad) }
        ensures valid { IsSystem self.now }
    {
        code_at(&self.parts.codes, self.code_place(name))
    }

    /// The place of the code of this name, counted from 0.
    pub fn code_place(&self, name: &Name) -> Option<usize>
        ensures value { result ≡ code_place self.now.codes name.now }
        ensures within { IfSome result (λ place. place < length self.now.codes) }
        ensures valid { IsSystem self.now }
    {
        self.codes_by_name.get(name).copied()
    }

    /// The place of the code that a word names, which may be no name.
    pub fn code_named(&self, word: &[u8]) -> Option<usize>
        ensures value { result ≡ code_place self.now.codes word.now }
        ensures within { IfSome result (λ place. place < length self.now.codes) }
        ensures valid { IsSystem self.now }
    {
        let index = &self.codes_by_name;
        match Name::read(word) {
            Some(name) => index.get(&name).copied(),
            None => None,
        }
    }

    /// What serves the messages of the code of this name: None exactly where there is no such code.
    pub fn job(&self, code: &Name) -> Option<Job<'_>>
        ensures value { option_map (lent_job self.now) result ≡ job_of self.now code.now }
        ensures there { IsSome (code_at self.now.codes code.now) → IsSome result }
        ensures servable { IfSome result (λ job. IsServable self.now.databases job.pcbs.now job.program.now) }
        ensures sent { IfSome result (λ job. All (IsSentTo self.now.codes) job.pcbs.now) }
        ensures pad { IfSome result (λ job. IsPadLength job.transaction.now.scratch_pad) }
        ensures valid { IsSystem self.now }
    {
        let place = self.code_place(code);
        job_of(
            code_at(&self.parts.codes, place),
            program_at(&self.parts.programs, &self.program_places, place),
        )
    }

    /// The terminals.
    pub fn terminals(&self) -> &[Name]
        ensures value { result.now ≡ self.now.terminals }
        ensures valid { IsSystem self.now }
    {
        &self.parts.terminals
    }

    /// The place of the terminal of this name, counted from 0.
    pub fn terminal_place(&self, name: &Name) -> Option<usize>
        ensures value { result ≡ position (λ terminal. bytes_eq terminal name.now) self.now.terminals }
        ensures within { IfSome result (λ place. place < length self.now.terminals) }
        ensures valid { IsSystem self.now }
    {
        self.terminals_by_name.get(name).copied()
    }

    /// The place of the terminal that a word names, which may be no name.
    pub fn terminal_named(&self, word: &[u8]) -> Option<usize>
        ensures value { result ≡ position (λ terminal. bytes_eq terminal word.now) self.now.terminals }
        ensures within { IfSome result (λ place. place < length self.now.terminals) }
        ensures valid { IsSystem self.now }
    {
        let index = &self.terminals_by_name;
        match Name::read(word) {
            Some(name) => index.get(&name).copied(),
            None => None,
        }
    }

    /// The format of the terminal of this name: None where it has none, or is no terminal.
    pub fn format_of(&self, terminal: &Name) -> Option<&Format>
        ensures value { option_copied result ≡ format_of self.now terminal.now }
        ensures kept { IfSome result (λ format. KeepsRule format.now) }
        ensures valid { IsSystem self.now }
    {
        let name = format_name(&self.parts.screens, terminal)?;
        format_named(&self.parts.formats, &name)
    }

    /// The classes of each region; the first region has number 1.
    pub fn regions(&self) -> &[Classes]
        ensures value { result.now ≡ self.now.regions }
        ensures valid { IsSystem self.now }
    {
        &self.parts.regions
    }
}
