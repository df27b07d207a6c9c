//! What holds of every timetable, as a contract.

ghost use Rattle.timetable.specs.Timed.{TimetableLaws};

/// Tables are refused at the lowest road that breaks its rule; those accepted mean a lawful network, in
/// which whoever is at a road enters it at the first minute at which it is open.
#[tactic(auto, using(crate::specs::Timed::timetable_laws))]
pub fn timetables_stand()
    ensures timetable_laws { TimetableLaws }
{}
