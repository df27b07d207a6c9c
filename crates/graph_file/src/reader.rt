//! The lines of graph files, read into the lent tables.

ghost use Rattle.std.specs.Prelude.{◌≡◌, ◌+◌, length, Some, None, Err, MatchResult};
ghost use Rattle.graph_file.specs.Files.{end_of, file_of, files_in, refused_at};
ghost use Rattle.graph_file.specs.Gathering.{Blank, Fit, Gathered, Takes, step_in};
ghost use Rattle.graph_file.specs.Steps.{Sized, Within};
ghost use Rattle.graph_file.specs.declared.machine.Fault.{Fault as FaultT};
ghost use Rattle.graph_line.specs.Statements.{capped, said};
ghost use Rattle.graph_line.specs.declared.Statement.TheVariants.{Crossing};
ghost use Rattle.numeral.specs.Texts.{lines};

use crate::machine::{Fault, Limits, Loaded, Progress, fits, repeats};
use curve::Point;
use graph_line::{Arc, Statement, read_line};
use network::Road;
use numeral::Lines;
use refusal::{Line, Refusal};

/// What has come so far, none before the first problem line, and what may still come.
// The two lent slices stand here and in `Tables`, and not in a struct within both: that was tried,
// and a caller then does not learn what the slices end as.
#[derive(Drop)]
pub struct Reader<'t> {
    pub limits: Limits,
    pub progress: Option<Progress>,
    pub roads: &'t mut [Road],
    pub points: &'t mut [Point],
    ghost fit: { Fit limits (length roads.now) (length points.now) },
    ghost within: { Within limits progress },
}

impl Reader<'_> {
    ghost use Rattle.graph_file.specs.Frames.{SameReader};

    /// Writes an arc: its ends if it is of the first file, and its weight after the weights before.
    fn take_arc(&mut self, progress: Progress, arc: Arc) -> Result<(), Fault>
        requires { Sized self.old.limits progress }
        ensures takes { MatchResult result (λ _. Takes self.old.limits (Crossing arc) (Some progress) self.new.progress self.old.roads.now self.new.roads.now self.old.points.now self.new.points.now) (λ fault. step_in self.old.limits (Some progress) self.old.roads.now (Crossing arc) ≡ Err fault) }
        ensures same_reader { SameReader self.old self.new }
    {
        let Progress { loaded, done } = progress;
        if done >= loaded.roads || !fits(arc, loaded.nodes) {
            return Err(Fault::BadText);
        }
        if loaded.files == 1 {
            self.roads[done as usize] = Road {
                tail: arc.tail - 1,
                head: arc.head - 1,
                ..Road::default()
            };
        } else if !repeats(self.roads[done as usize], arc) {
            return Err(Fault::BadText);
        }
        let at = (loaded.files - 1) * loaded.roads + done;
        self.points[at as usize] = Point {
            departure: arc.weight,
            arrival: 0,
        };
        self.progress = Some(Progress {
            loaded,
            done: done + 1,
        });
        Ok(())
    }

    /// Takes what a line says, and writes its arc into the tables.
    fn take(&mut self, said: Statement) -> Result<(), Fault>
        ensures takes { MatchResult result (λ _. Takes self.old.limits said self.old.progress self.new.progress self.old.roads.now self.new.roads.now self.old.points.now self.new.points.now) (λ fault. step_in self.old.limits self.old.progress self.old.roads.now said ≡ Err fault) }
        ensures same_reader { SameReader self.old self.new }
    {
        match (self.progress, said) {
            (_, Statement::Comment) => {}
            (None, Statement::Problem(nodes, roads)) => {
                self.progress = Some(Progress::begin(self.limits, nodes, roads)?);
            }
            (Some(progress), Statement::Problem(nodes, roads)) => {
                self.progress = Some(progress.begin_next(self.limits, nodes, roads)?);
            }
            (Some(progress), Statement::Crossing(arc)) => self.take_arc(progress, arc)?,
            (None, Statement::Crossing(_)) | (_, Statement::BrokenProblem | Statement::Broken) => {
                return Err(Fault::BadText);
            }
        }
        Ok(())
    }

    /// The file of a line.
    fn file_of(&self, said: Statement) -> u32
        ensures file_of_line { result ≡ file_of self.now.progress said }
    {
        match (self.progress, said) {
            (Some(progress), Statement::Problem(_, _) | Statement::BrokenProblem) => {
                progress.loaded.files + 1
            }
            (Some(progress), _) => progress.loaded.files,
            (None, _) => 1,
        }
    }

    /// What all lines give; an end that comes too early is refused at the line past the last.
    fn finish(&self, line: usize) -> Result<Loaded, Refusal>
        ensures finishes { result ≡ end_of self.now.progress line }
    {
        match self.progress {
            Some(Progress { loaded, done }) if done == loaded.roads => Ok(loaded),
            progress => Err(Refusal::Text(Line {
                file: progress.map_or(1, |progress| progress.loaded.files),
                line,
            })),
        }
    }

    /// Takes a line, or says where it is refused.
    fn take_line(&mut self, front: &[u8], line: usize) -> Result<(), Refusal>
        ensures takes { MatchResult result (λ _. Takes self.old.limits (capped (said front.now)) self.old.progress self.new.progress self.old.roads.now self.new.roads.now self.old.points.now self.new.points.now) (λ e. (fault : FaultT) × (step_in self.old.limits self.old.progress self.old.roads.now (capped (said front.now)) ≡ Err fault) × (e ≡ refused_at fault (file_of self.old.progress (capped (said front.now))) line)) }
        ensures same_reader { SameReader self.old self.new }
    {
        let said = read_line(front);
        let file = self.file_of(said);
        self.take(said)
            .map_err(|fault| fault.at(Line { file, line }))
    }

    /// Reads all lines; the tables take the ends, and all weights one after the other.
    pub fn read(&mut self, text: &[u8]) -> Result<Loaded, Refusal>
        requires none_came { self.old.progress ≡ None }
        requires blank { Blank self.old.roads.now self.old.points.now }
        ensures reads_files { MatchResult result (λ got. Gathered self.old.limits text.now got self.new.roads.now self.new.points.now) (λ e. files_in self.old.limits text.now ≡ Err e) }
        ensures same_reader { SameReader self.old self.new }
    {
        let mut last = 0;
        for (index, front) in Lines(text).enumerate() {
            last = index + 1;
            self.take_line(front, last)?;
        }
        self.finish(last + 1)
    }
}
