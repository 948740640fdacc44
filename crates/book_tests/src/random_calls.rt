// Three hundred lists of calls drawn at random, each on a book of its own beside the weather estimator, and
// every answer and figure held to a recomputation from the accepted calls.
use super::calls::{
    Case, begins, day, degree_days, enrol, figure, gate, interval, opened, reading, retailer,
    serve_table,
};
use super::recomputation::{Area, Count, Enrolled, Gate, Metered, Taken, Worked};
use book::{Answer, Book, OpeningRequest};
use estimates::{ByWeather, Factors};
use estimators::Weather;
use rules::Call;
use sheet::Account;
use std::alloc::{AllocError, Global};
use std::process::Abort;
use std::test::Fail;
use terms::{ReadingType, Refusal};

// The days of the books and a few days more, over the end of a leap year's February.
const DATES: [u32; 18] = [
    20240222, 20240223, 20240224, 20240225, 20240226, 20240227, 20240228, 20240229, 20240301,
    20240302, 20240303, 20240304, 20240305, 20240306, 20240307, 20240308, 20240309, 20240310,
];

// Calls of one list.
const TURNS: u32 = 60;

// The date of a day.
fn date(day: u32) -> u32 {
    DATES.get(day as usize).copied().unwrap_or(0)
}

// Pseudo-random numbers by a linear congruence.
#[derive(Drop)]
struct Draws {
    state: u64,
}

// A call with days for dates.
#[derive(Clone, Copy, PartialEq, Eq, Debug)]
enum Step {
    Enrol(Enrolled),
    Gate(Gate),
    Interval(Metered),
    DegreeDays(Count),
    Reading(Taken),
}

// What the lists have met.
#[derive(Drop)]
struct Met {
    accepted: u64,
    replaced: u64,
    scaled: u64,
    exceeded: u64,
    missing: u64,
    // By number: refusals that name a day differ day by day.
    refused: [u64; 16],
}

impl Draws {
    // A number below another.
    fn below(&mut self, n: u32) -> u32 {
        self.state = self
            .state
            .wrapping_mul(6364136223846793005)
            .wrapping_add(1442695040888963407);
        ((self.state >> 33) as u32) % n.max(1)
    }

    // An energy of a size, now and then 0, at its limit or 1 beyond it.
    fn energy(&mut self, size: u32, limit: u32) -> u64 {
        match self.below(20) {
            0 => 0,
            1 => u64::from(limit).saturating_add(u64::from(self.below(2))),
            _ => u64::from(self.below(size.min(limit).saturating_add(1))),
        }
    }

    // The end of an accepted reading, or the first day.
    fn old_end(&mut self, area: &Area) -> u32 {
        let i = self.below(16) as usize;
        area.readings
            .iter()
            .rev()
            .nth(i / 2)
            .map_or(0, |reading| reading.end)
    }

    fn reading(&mut self, area: &Area, size: u32) -> Taken {
        let start = match self.below(5) {
            0 | 1 => 0,
            2 | 3 => self.old_end(area),
            _ => self.below(area.days.saturating_add(1)),
        };
        let end = match self.below(5) {
            0 => self.old_end(area),
            1 => start.saturating_add(1),
            2 => start.saturating_add(self.below(4)).min(area.days),
            _ => self.below(area.days.saturating_add(2)),
        };
        let energy = match self.below(30) {
            0 => -5,
            _ => i64::try_from(self.energy(size, 10_000_000)).unwrap_or(0),
        };
        let reading_type = match self.below(4) {
            0 => ReadingType::Actual,
            1 => ReadingType::Substituted,
            2 => ReadingType::Estimated,
            _ => ReadingType::CustomersOwn,
        };
        Taken {
            point: match self.below(40) {
                0 => area.points.saturating_add(1),
                _ => self.below(area.points).saturating_add(1),
            },
            start: start.min(17),
            end: end.min(17),
            energy,
            reading_type,
        }
    }

    // The gate day of a day.
    fn gate(&mut self, day: u32, size: u32) -> Step {
        let energy_in = self.energy(size.saturating_mul(8), 1_000_000_000);
        let energy_out = match self.below(4) {
            0 => self.energy(size, 1_000_000_000),
            _ => 0,
        };
        Step::Gate(Gate {
            day,
            energy_in,
            energy_out,
        })
    }

    // The first calls of a list are mostly gate days and enrolments, so that readings find loads and points.
    fn step(&mut self, area: &Area, turn: u32, size: u32) -> Step {
        if turn < area.days && self.below(8) > 0 {
            return self.gate(turn, size);
        }
        let day = self.below(area.days.saturating_add(1));
        let kind = match turn {
            0..20 => self.below(6),
            _ => self.below(15),
        };
        match kind {
            0 => self.gate(day, size),
            1 => Step::Interval(Metered {
                day,
                meter: match self.below(8) {
                    0 => self.below(34),
                    _ => self.below(3).saturating_add(1),
                },
                energy: self.energy(size, 100_000_000),
            }),
            2 | 3 => Step::DegreeDays(Count {
                day,
                count: self.below(20_040),
            }),
            4 | 5 => Step::Enrol(Enrolled {
                point: self.below(area.points.saturating_add(2)),
                retailer: match self.below(20) {
                    0 => 17,
                    _ => self.below(3).saturating_add(1),
                },
                start: match self.below(3) {
                    0 => day,
                    _ => 0,
                },
            }),
            _ => Step::Reading(self.reading(area, size)),
        }
    }

    // An area that was told nothing, with heating of most points and counts of some days.
    fn area(&mut self, heap: Global, size: u32) -> Result<Area, AllocError> {
        let days = self.below(14).saturating_add(1);
        let points = self.below(5).saturating_add(1);
        let unaccounted = match self.below(3) {
            0 => 0,
            1 => 300,
            _ => 2_000,
        };
        let most = self.below(12).saturating_add(1);
        let places = self.below(most).saturating_add(1) as usize;
        let mut heating = Vec::new(heap);
        for _ in 0..points {
            // Whole half megajoules, so that some estimates lie halfway.
            let halves = self.below(size.saturating_mul(2).min(200_000));
            let factors = Factors {
                base_load: u64::from(halves).saturating_mul(500),
                sensitivity: match self.below(4) {
                    0 => 0,
                    _ => u64::from(self.below(size.saturating_mul(20).min(1_000_000))),
                },
            };
            heating.push(match self.below(5) {
                0 => None,
                _ => Some(factors),
            })?;
        }
        let mut counts_at_opening = Vec::new(heap);
        for day in 0..days {
            let count = self.below(20_001);
            if self.below(3) == 0 {
                counts_at_opening.push(Count { day, count })?;
            }
        }
        Ok(Area {
            days,
            points,
            unaccounted,
            places,
            heating,
            counts_at_opening,
            enrolments: Vec::new(heap),
            gates: Vec::new(heap),
            intervals: Vec::new(heap),
            counts: Vec::new(heap),
            readings: Vec::new(heap),
        })
    }
}

// The weather estimator as it is at the opening.
fn weather(area: &Area) -> Result<ByWeather, Fail> {
    let mut weather = ByWeather::new();
    for (point, heating) in (1..=area.points).zip(area.heating.iter()) {
        if let Some(factors) = heating {
            weather.enter_factors(point, *factors)?;
        }
    }
    for count in area.counts_at_opening.iter() {
        weather.enter(count.day.saturating_add(1), count.count)?;
    }
    Ok(weather)
}

impl Step {
    fn call(self) -> Call {
        match self {
            Step::Enrol(told) => enrol(told.point, told.retailer, date(told.start)),
            Step::Gate(told) => gate(date(told.day), told.energy_in, told.energy_out),
            Step::Interval(told) => interval(date(told.day), told.meter, told.energy),
            Step::DegreeDays(told) => degree_days(date(told.day), told.count),
            Step::Reading(told) => reading(
                told.point,
                date(told.start),
                date(told.end),
                told.energy,
                told.reading_type,
            ),
        }
    }
}

// Judges a call of a day by its numbers and its day.
fn within(area: &Area, numbers: bool, day: u32) -> Result<(), Refusal> {
    if !numbers {
        return Err(Refusal::BeyondLimits);
    }
    if day >= area.days {
        return Err(Refusal::OutsideBook);
    }
    Ok(())
}

// Judges a call by the rules, beside the readings that are held.
fn judge(area: &Area, held: &[Taken], step: Step) -> Result<(), Refusal> {
    match step {
        Step::Enrol(told) => {
            let numbers = (1..=area.points).contains(&told.point)
                && (1..=16).contains(&told.retailer);
            within(area, numbers, told.start)?;
            if area.enrolment(told.point).is_some() {
                return Err(Refusal::PointEnrolledAlready);
            }
            Ok(())
        }
        Step::Gate(told) => {
            let numbers = told.energy_in <= 1_000_000_000 && told.energy_out <= 1_000_000_000;
            within(area, numbers, told.day)
        }
        Step::Interval(told) => {
            let numbers = (1..=32).contains(&told.meter) && told.energy <= 100_000_000;
            within(area, numbers, told.day)
        }
        Step::DegreeDays(told) => within(area, told.count <= 20_000, told.day),
        Step::Reading(told) => area.judge_reading(held, told, &DATES),
    }
}

// Adds an accepted call.
fn take(area: &mut Area, step: Step) -> Result<(), AllocError> {
    match step {
        Step::Enrol(told) => area.enrolments.push(told)?,
        Step::Gate(told) => area.gates.push(told)?,
        Step::Interval(told) => area.intervals.push(told)?,
        Step::DegreeDays(told) => area.counts.push(told)?,
        Step::Reading(told) => area.readings.push(told)?,
    }
    Ok(())
}

// The answer about a day.
fn account(worked: &Worked, date: u32) -> Result<Answer, Refusal> {
    let load = worked.load.ok_or(Refusal::AskedDayWithoutLoad { date })?;
    Ok(Answer::Day(Account {
        load,
        supplied: worked.supplied,
        generated: worked.generated,
        remainder: worked.remainder,
        excess: worked.excess,
        missing: worked.missing,
    }))
}

// Adds the questions about a day, with their answers.
fn ask(area: &Area, worked: &Worked, asked: u32, table: &mut Vec<Case>) -> Result<(), AllocError> {
    let date = date(asked);
    table.push((day(date), account(worked, date)))?;
    for number in 1..5 {
        let sum = area.retailer_sum(worked, number);
        table.push((retailer(number, date), Ok(Answer::RetailerSum(sum))))?;
    }
    for (point, value) in (1..=area.points).zip(worked.figures.iter()) {
        let due = area
            .enrolment(point)
            .map(|_| Answer::Figure(*value))
            .ok_or(Refusal::PointNotEnrolled);
        table.push((figure(point, date), due))?;
    }
    Ok(())
}

// The places of a book hold the held readings, and no others.
fn places_hold(
    rt: &(impl Abort + AllocGlobal),
    at: &str,
    book: &Book,
    area: &Area,
) -> Result<(), Fail> {
    let held = area.held(rt.alloc())?;
    let taken = book.readings().iter().flatten().count();
    assert_eq!(rt; taken, held.len(), "{at}: held readings");
    for due in held.iter() {
        let found = book.readings().iter().flatten().any(|reading| {
            reading.point == due.point
                && reading.start == due.start
                && reading.end == due.end
                && reading.energy == due.energy.unsigned_abs()
                && reading.reading_type == due.reading_type
        });
        assert!(rt; found, "{at}: a held reading");
    }
    Ok(())
}

// What a book is to answer to every question, and what its lists are to begin with.
#[derive(Drop)]
struct Due {
    table: Vec<Case>,
    sheet: Vec<u64>,
    intervals: Vec<u64>,
}

fn all_due(heap: Global, area: &Area, met: &mut Met) -> Result<Due, AllocError> {
    let loads = area.loads(heap)?;
    let mut due = Due {
        table: Vec::new(heap),
        sheet: Vec::new(heap),
        intervals: Vec::new(heap),
    };
    for day in 0..area.days {
        let worked = area.work(heap, loads.as_slice(), day)?;
        ask(area, &worked, day, &mut due.table)?;
        due.sheet.extend_from_slice(worked.figures.as_slice())?;
        due.intervals.extend_from_slice(&area.energies(day))?;
        met.add_day(&worked);
    }
    Ok(due)
}

impl Met {
    fn add_day(&mut self, worked: &Worked) {
        let exceeded = worked.load.is_some() && worked.excess > 0;
        self.scaled = self.scaled.saturating_add(u64::from(worked.scaled));
        self.exceeded = self.exceeded.saturating_add(u64::from(exceeded));
        self.missing = self.missing.saturating_add(worked.missing);
    }

    fn add_refusal(&mut self, refusal: Refusal) {
        if let Some(times) = self.refused.get_mut(usize::from(refusal.number())) {
            *times = times.saturating_add(1);
        }
    }
}

// A book, its estimator, and what both have accepted.
#[derive(Drop)]
struct Bench {
    book: Book,
    weather: ByWeather,
    area: Area,
}

impl Bench {
    // Holds every figure, answer and list of the book to the recomputation.
    fn compare(
        &mut self,
        rt: &(impl Abort + AllocGlobal),
        at: &str,
        met: &mut Met,
    ) -> Result<(), Fail> {
        let due = all_due(rt.alloc(), &self.area, met)?;
        serve_table(
            rt,
            at,
            &mut self.book,
            &mut self.weather,
            due.table.as_slice(),
        )?;
        begins(rt, at, self.book.sheet(), due.sheet.as_slice());
        begins(rt, at, self.book.intervals(), due.intervals.as_slice());
        places_hold(rt, at, &self.book, &self.area)
    }

    // Serves a call, and holds its answer to the rules.
    fn tell(
        &mut self,
        rt: &(impl Abort + AllocGlobal),
        at: &str,
        step: Step,
        met: &mut Met,
    ) -> Result<(), Fail> {
        let held = self.area.held(rt.alloc())?;
        let judged = judge(&self.area, held.as_slice(), step);
        serve_table(
            rt,
            at,
            &mut self.book,
            &mut self.weather,
            &[(step.call(), judged.map(|()| Answer::Accepted))],
        )?;
        match judged {
            Ok(()) => {
                met.accepted = met.accepted.saturating_add(1);
                take(&mut self.area, step)?;
            }
            Err(refusal) => met.add_refusal(refusal),
        }
        Ok(())
    }
}

// One list of calls. All is compared after each of them.
fn run(rt: &(impl Abort + AllocGlobal), list: u32, size: u32, met: &mut Met) -> Result<(), Fail> {
    let heap = rt.alloc();
    let mut draws = Draws {
        state: u64::from(list),
    };
    let area = draws.area(heap, size)?;
    let weather = weather(&area)?;
    let request = OpeningRequest {
        first_date: date(0),
        days: area.days,
        points: area.points,
        unaccounted: area.unaccounted,
    };
    let book = opened(heap, request, area.places)?;
    let mut bench = Bench {
        book,
        weather,
        area,
    };
    for turn in 0..TURNS {
        let step = draws.step(&bench.area, turn, size);
        let at = format!(in heap; "list {list}, turn {turn}")?;
        bench.tell(rt, &at, step, met)?;
        bench.compare(rt, &at, met)?;
    }
    let held = bench.area.held(heap)?.len();
    let replaced = bench.area.readings.len().saturating_sub(held);
    met.replaced = met.replaced.saturating_add(replaced as u64);
    Ok(())
}

#[test]
fn three_hundred_lists(rt: HostRuntime) -> Result<(), Fail> {
    let mut met = Met {
        accepted: 0,
        replaced: 0,
        scaled: 0,
        exceeded: 0,
        missing: 0,
        refused: [0; 16],
    };
    for list in 0..300u32 {
        let size = match list % 4 {
            0 => 20,
            1 => 400,
            2 => 20_000,
            _ => 10_000_000,
        };
        run(&rt, list, size, &mut met)?;
    }
    for (number, times) in met.refused.iter().enumerate() {
        // Beyond the limits, and from a day outside the book to no place for a reading.
        if matches!(number, 3 | 5..=13) {
            assert!(rt; *times >= 100, "refused with {number}");
        }
    }
    assert!(rt; met.accepted >= 6_000);
    assert!(rt; met.replaced >= 200);
    assert!(rt; met.scaled >= 5_000);
    assert!(rt; met.exceeded >= 500);
    assert!(rt; met.missing >= 10_000);
    Ok(())
}
