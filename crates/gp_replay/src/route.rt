//! Where a goroutine stands, statement by statement, and what it passes.
use gp_cases::Unanswered;
use gp_isa::{Frame, Program, Stmt, What};
use std::alloc::{AllocError, Global};

// The most statements that come behind one another without a point between.
const TURNS: u32 = 10_000;

/// A body on the way to where a goroutine stands: that of a function, or of the loop at which it stands in the body before.
#[derive(Clone, Copy)]
struct Level {
    function: u32,
    is_loop: bool,
    // the statement
    at: u32,
    // this one among them
    turns_left: u32,
}

/// The bodies in which a goroutine stands, from the one that it was born with to the innermost; and how much of the statement's work
/// was passed there.
#[derive(Drop)]
pub struct Route {
    levels: Vec<Level>,
    passed: u64,
}

fn function_body(program: &Program, function: u32) -> Option<&[Stmt]> {
    match program.parts().functions.get(function as usize) {
        Some(function) => Some(function.body.as_slice()),
        None => None,
    }
}

fn loop_body(statement: &Stmt) -> Option<&[Stmt]> {
    match &statement.what {
        What::Loop { body, .. } => Some(body.get().as_slice()),
        _ => None,
    }
}

fn is_local(what: &What) -> bool {
    match what {
        What::Work { .. } | What::Labels { .. } => true,
        _ => false,
    }
}

// The statement in a body of the level, which a loop's level has from the statement of the level before.
fn inner<'a>(program: &'a Program, around: Option<&'a Stmt>, level: Level) -> Option<&'a Stmt> {
    let body = if level.is_loop {
        match around {
            Some(statement) => loop_body(statement),
            None => None,
        }
    } else {
        function_body(program, level.function)
    };
    match body {
        Some(body) => body.get(level.at as usize),
        None => None,
    }
}

impl Route {
    /// That of a goroutine that is born with a function.
    pub fn new(alloc: Global, program: &Program, function: u32) -> Result<Route, Unanswered> {
        let mut route = Route {
            levels: Vec::new(alloc),
            passed: 0,
        };
        route.begin(function, false, 1)?;
        route.settle(program)?;
        Ok(route)
    }

    // The statement in which it stands in the last of so many levels.
    fn statement<'a>(&self, program: &'a Program, levels: usize) -> Option<&'a Stmt> {
        let mut statement: Option<&'a Stmt> = None;
        for level in self.levels.iter().take(levels) {
            statement = inner(program, statement, *level);
        }
        statement
    }

    fn begin(&mut self, function: u32, is_loop: bool, turns: u32) -> Result<(), AllocError> {
        self.levels.push(Level {
            function,
            is_loop,
            at: 0,
            turns_left: turns,
        })?;
        Ok(())
    }

    // Behind the statement where it stands.
    fn step_over(&mut self) {
        self.passed = 0;
        if let Some(level) = self.levels.last_mut() {
            level.at = level.at.saturating_add(1);
        }
    }

    // From the end of a body to its begin, or behind the statement that it belongs to.
    fn come_round(&mut self, level: Level) {
        if level.turns_left > 1 {
            if let Some(last) = self.levels.last_mut() {
                last.at = 0;
                last.turns_left = level.turns_left.saturating_sub(1);
            }
        } else {
            let _ = self.levels.pop();
            self.step_over();
        }
    }

    // Into a call or a loop, or on from the end of a body. It tells whether it went.
    fn turn(&mut self, program: &Program) -> Result<bool, Unanswered> {
        let Some(level) = self.levels.last().copied() else {
            return Ok(false);
        };
        let Some(statement) = self.statement(program, self.levels.len()) else {
            self.come_round(level);
            return Ok(true);
        };
        match &statement.what {
            What::Call { f } => self.begin(*f, false, 1)?,
            What::Loop { n, .. } => self.begin(level.function, true, *n)?,
            _ => return Ok(false),
        }
        Ok(true)
    }

    // On to a statement with a point, or to the end.
    fn settle(&mut self, program: &Program) -> Result<(), Unanswered> {
        for _ in 0..TURNS {
            if !self.turn(program)? {
                return Ok(());
            }
        }
        Err(Unanswered::Form)
    }

    /// Whether the trace is ended.
    pub fn is_over(&self) -> bool {
        self.levels.is_empty()
    }

    /// What is done at the next point.
    pub fn next<'a>(&self, program: &'a Program) -> Option<&'a What> {
        match self.statement(program, self.levels.len()) {
            Some(statement) => Some(&statement.what),
            None => None,
        }
    }

    /// Whether the next point is a local one.
    pub fn is_at_local(&self, program: &Program) -> bool {
        match self.next(program) {
            Some(what) => is_local(what),
            None => false,
        }
    }

    /// Past the next point, which isn't work.
    pub fn pass(&mut self, program: &Program) -> Result<(), Unanswered> {
        self.step_over();
        self.settle(program)
    }

    /// As many points of the work where it stands as there are left of `n`. It tells how many are then left of that.
    pub fn work(&mut self, program: &Program, whole: u32, n: u64) -> Result<u64, Unanswered> {
        let ahead = u64::from(whole).saturating_sub(self.passed);
        if n < ahead {
            self.passed = self.passed.saturating_add(n);
            return Ok(0);
        }
        self.pass(program)?;
        Ok(n.saturating_sub(ahead))
    }

    /// The stack, the leaf first, cut to so many frames: of each function the statement of its innermost loop.
    pub fn frames(
        &self,
        alloc: Global,
        program: &Program,
        most: usize,
    ) -> Result<Vec<Frame>, AllocError> {
        let mut frames = Vec::new(alloc);
        let mut levels = self.levels.len();
        let mut is_innermost = true;
        for level in self.levels.iter().rev() {
            if is_innermost && frames.len() < most {
                if let Some(statement) = self.statement(program, levels) {
                    frames.push(Frame {
                        function: level.function,
                        line: statement.line,
                    })?;
                }
            }
            is_innermost = !level.is_loop;
            levels = levels.saturating_sub(1);
        }
        Ok(frames)
    }
}
