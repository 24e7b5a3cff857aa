//! Parts in lines of words, whatever their statements name or count.
//!
//! Lines are parted by `;` and counted from 1. `func NAME` and `loop NUM` are closed by `end`; a statement is its verb
//! with a number; `chan NAME NUM`, `mutex NAME` and `set NAME KEY=VALUE ..` declare.
use crate::error::Unanswered;
use crate::reading::{halves, number_32, word, words};
use gp_isa::{
    ChannelDecl, Channels, Function, Functions, LabelSet, LabelSets, MutexDecl, Mutexes, Pair,
    Pairs, Parts, Program, Stmt, Stmts, Text, What, check,
};
use sqlite_items::Boxed;
use std::alloc::Global;
use std::mem;

/// A loop whose `end` is still to come, and the statements before it in the body around.
#[derive(Drop)]
struct Loop {
    line: u32,
    turns: u32,
    around: Stmts,
}

/// Parts as far as they are built.
#[derive(Drop)]
struct Builder {
    alloc: Global,
    parts: Parts,
    // of the function whose `end` is still to come
    name: Text,
    line: u32,
    loops: Vec<Loop>,
    body: Stmts,
}

fn what(verb: &str, n: u32) -> Option<What> {
    match verb {
        "work" => Some(What::Work { n }),
        "call" => Some(What::Call { f: n }),
        "send" => Some(What::Send { c: n }),
        "recv" => Some(What::Recv { c: n }),
        "lock" => Some(What::Lock { m: n }),
        "unlock" => Some(What::Unlock { m: n }),
        "spawn" => Some(What::Spawn { f: n }),
        "labels" => Some(What::Labels {
            s: u8::try_from(n).ok()?,
        }),
        _ => None,
    }
}

fn pairs(alloc: Global, row: &str) -> Result<Pairs, Unanswered> {
    let mut pairs = Pairs::new(alloc);
    for word in words(alloc, row)? {
        let (key, value) = halves(word, '=')?;
        pairs.push(Pair {
            key: Text::from_str(alloc, key)?,
            value: Text::from_str(alloc, value)?,
        })?;
    }
    Ok(pairs)
}

impl Builder {
    fn new(alloc: Global) -> Builder {
        Builder {
            alloc,
            parts: Parts {
                functions: Functions::new(alloc),
                channels: Channels::new(alloc),
                mutexes: Mutexes::new(alloc),
                labels: LabelSets::new(alloc),
            },
            name: Text::from_string(String::new(alloc)),
            line: 0,
            loops: Vec::new(alloc),
            body: Stmts::new(alloc),
        }
    }

    fn begin(&mut self, line: u32, turns: u32) -> Result<(), Unanswered> {
        let around = mem::replace(&mut self.body, Stmts::new(self.alloc));
        self.loops.push(Loop {
            line,
            turns,
            around,
        })?;
        Ok(())
    }

    fn end(&mut self, end: u32) -> Result<(), Unanswered> {
        let body = mem::replace(&mut self.body, Stmts::new(self.alloc));
        match self.loops.pop() {
            Some(
                Loop {
                    line,
                    turns,
                    around,
                },
            ) => {
                self.body = around;
                let what = What::Loop {
                    n: turns,
                    body: Boxed::new(self.alloc, body)?,
                    end,
                };
                self.body.push(Stmt { line, what })?;
            }
            None => {
                let none = Text::from_string(String::new(self.alloc));
                self.parts.functions.push(Function {
                    name: mem::replace(&mut self.name, none),
                    line: self.line,
                    end,
                    body,
                })?;
            }
        }
        Ok(())
    }

    fn declare(&mut self, line: u32, verb: &str, name: Text, more: &str) -> Result<(), Unanswered> {
        match verb {
            "func" => {
                self.name = name;
                self.line = line;
            }
            "chan" => self.parts.channels.push(ChannelDecl {
                name,
                line,
                capacity: number_32(more)?,
            })?,
            "mutex" => self.parts.mutexes.push(MutexDecl { name, line })?,
            _ => self.parts.labels.push(LabelSet {
                name,
                line,
                pairs: pairs(self.alloc, more)?,
            })?,
        }
        Ok(())
    }

    fn add(&mut self, line: u32, text: &str) -> Result<(), Unanswered> {
        let (verb, rest) = word(text.trim());
        let (name, more) = word(rest);
        match verb {
            "" => {}
            "end" => self.end(line)?,
            "loop" => self.begin(line, number_32(name)?)?,
            "func" | "chan" | "mutex" | "set" => {
                self.declare(line, verb, Text::from_str(self.alloc, name)?, more)?
            }
            _ => {
                let what = what(verb, number_32(name)?).ok_or(Unanswered::Form)?;
                self.body.push(Stmt { line, what })?;
            }
        }
        Ok(())
    }
}

/// The parts of such lines.
pub fn parts_of(alloc: Global, text: &str) -> Result<Parts, Unanswered> {
    let mut builder = Builder::new(alloc);
    let mut line: u32 = 1;
    for piece in text.split(';') {
        builder.add(line, piece)?;
        line = line.saturating_add(1);
    }
    Ok(builder.parts)
}

/// The program of such lines, if they make one.
pub fn program_of(alloc: Global, text: &str) -> Result<Program, Unanswered> {
    let parts = parts_of(alloc, text)?;
    if !parts.in_limits() {
        return Err(Unanswered::Form);
    }
    check(alloc, parts).ok().ok_or(Unanswered::Form)
}
