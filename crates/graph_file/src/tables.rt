//! The tables of a network, brought into their last form and scanned for overtaking.

ghost use Rattle.std.specs.Prelude.{◌≡◌, ℕ, ◌*◌, ◌<◌, ◌≤◌, List, length, get_or, Some, Ok, slice_index_or};
ghost use Rattle.std.specs.List.{find, range_with_len};
ghost use Rattle.curve.specs.Curve.{no_point};
ghost use Rattle.graph_file.specs.Gathering.{Kept, closed};
ghost use Rattle.graph_file.specs.Loads.{Holds};
ghost use Rattle.graph_file.specs.Placing.{Placed, falls_in, run_at, runs_to, spread_to, stamped_to};
ghost use Rattle.graph_line.specs.declared.Arc.{Arc};
ghost use Rattle.network.specs.Tables.{no_road};

use crate::machine::Loaded;
use curve::Point;
use network::Road;

/// The lent tables after the last line, with what was loaded and the minutes between two files.
#[derive(Drop)]
pub struct Tables<'t> {
    pub loaded: Loaded,
    pub spacing: u32,
    pub roads: &'t mut [Road],
    pub points: &'t mut [Point],
    ghost placed: { Placed loaded spacing (length roads.now) (length points.now) },
}

impl Tables<'_> {
    ghost use Rattle.graph_file.specs.Frames.{SameTables};

    /// Writes each arrival at its road's place; the departures are still the weights, file by file.
    fn spread(&mut self)
        requires light { (k : ℕ) → (get_or self.old.points.now k no_point).departure ≤ 10000 }
        ensures writes_arrivals { (j : ℕ) → slice_index_or self.new.points.now j no_point ≡ spread_to self.old.loaded.roads self.old.loaded.files self.old.spacing self.old.points.now (self.old.loaded.roads * self.old.loaded.files) j }
        ensures keeps_roads { self.new.roads.now ≡ self.old.roads.now }
        ensures same_tables { SameTables self.old self.new }
    {
        let Loaded { roads, files, .. } = self.loaded;
        let points = &mut *self.points;
        // Each weight waits at another place than its arrival's, so that the places are counted.
        for k in 0..roads * files {
            let (road, file) = (k / files, k % files);
            let weight = points[(file * roads + road) as usize].departure;
            points[k as usize].arrival = file * self.spacing + weight;
        }
    }

    /// Writes each place's minute as its departure.
    fn stamp(&mut self)
        ensures writes_departures { (j : ℕ) → slice_index_or self.new.points.now j no_point ≡ stamped_to self.old.loaded.files self.old.spacing self.old.points.now (self.old.loaded.roads * self.old.loaded.files) j }
        ensures keeps_roads { self.new.roads.now ≡ self.old.roads.now }
        ensures same_tables { SameTables self.old self.new }
    {
        let Loaded { roads, files, .. } = self.loaded;
        let places = (roads * files) as usize;
        for (k, point) in self.points[..places].iter_mut().enumerate() {
            point.departure = k as u32 % files * self.spacing;
        }
    }

    /// Gives each road its run.
    fn give_runs(&mut self)
        ensures writes_runs { (r : ℕ) → slice_index_or self.new.roads.now r no_road ≡ runs_to self.old.loaded.files self.old.roads.now self.old.loaded.roads r }
        ensures keeps_points { self.new.points.now ≡ self.old.points.now }
        ensures same_tables { SameTables self.old self.new }
    {
        let Loaded { roads, files, .. } = self.loaded;
        for (r, road) in self.roads[..roads as usize].iter_mut().enumerate() {
            road.first = r as u32 * files;
            road.count = files;
        }
    }

    /// Brings the tables into their last form.
    pub fn lay_out(&mut self)
        requires light { (k : ℕ) → (get_or self.old.points.now k no_point).departure ≤ 10000 }
        ensures lays_out { (arcs : List Arc) → Kept (Some (closed self.old.loaded)) arcs self.old.roads.now self.old.points.now → Holds self.old.spacing (Ok (self.old.loaded, arcs)) self.new.roads.now self.new.points.now }
        ensures same_tables { SameTables self.old self.new }
    {
        self.spread();
        self.stamp();
        self.give_runs();
    }

    /// Whether a later vehicle overtakes on a road.
    fn is_overtaken(&self, road: u32) -> bool
        requires { road < self.now.loaded.roads }
        ensures one_falls { result ≡ falls_in (run_at self.now.points.now self.now.loaded.files road) }
    {
        let files = self.loaded.files as usize;
        let first = road as usize * files;
        let run = &self.points[first..first + files];
        !run.is_sorted_by(|point, next| point.arrival <= next.arrival)
    }

    /// The lowest road on which a later vehicle overtakes.
    pub fn lowest_overtaken(&self) -> Option<u32>
        ensures lowest_that_falls { result ≡ find (λ r. falls_in (run_at self.now.points.now self.now.loaded.files r)) (range_with_len 0 self.now.loaded.roads) }
    {
        (0..self.loaded.roads).find(|road| self.is_overtaken(*road))
    }
}
