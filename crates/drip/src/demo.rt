// `drip demo`: two growers on one drip line and the station on it, told as a short tutorial.
use crate::{Console, Failure};
use labels::Growers;
use machine::{Call, Entry, Labelled, Operation};
use policies::{AnyPolicy, PolicyName};
use readings::Logged;
use sites::{Answered, Making, Parts, Reply, Site};
use std::alloc::{AllocError, Global};
use std::io;

const NO_GROWER: Growers = Growers { mask: 0x0000 };

const GROWER_0: Growers = Growers { mask: 0x0001 };

const GROWER_1: Growers = Growers { mask: 0x0002 };

const BOTH: Growers = Growers { mask: 0x0003 };

const OPENING: &str = "Two growers share a drip line and the station on it. This is the station at
work, call by call: a call stands before the colon, its answer behind it.
40@0001 is the number 40 with the label 0001. A label says whose readings the
number can carry: 0001 grower 0's, 0002 grower 1's, 0003 both, 0000 nobody's.
In each round the station's program puts out three commands: a fixed flush,
grower 0's own dose from cell 0, and the sum of cells 0 and 1, which it also
keeps in cell 2. To load a cell it calls a small subroutine.";

// The station of the two growers.
type SharedSite = Site<AnyPolicy<Growers>, Growers>;

// Why the story ends early.
#[derive(Drop)]
enum Early {
    // The station's state takes no such call.
    NotTaken(SharedSite),
    Failed(Failure),
}

impl From<io::Error> for Early {
    fn from(e: io::Error) -> Early {
        Early::Failed(Failure::from(e))
    }
}

/// One run of `drip demo`: where it writes, and the policy of its station.
#[derive(Drop)]
pub struct Demo<'c, 'a> {
    console: &'c mut Console<'a>,
    policy: PolicyName,
}

impl<'c, 'a> Demo<'c, 'a> {
    /// A run of `drip demo` that writes there, with this policy.
    pub fn new(console: &'c mut Console<'a>, policy: PolicyName) -> Demo<'c, 'a> {
        Demo { console, policy }
    }

    /// Tells the story of the station, to its end or to a call that the
    /// station does not take, and then the station's state.
    pub fn show(&mut self) -> Result<(), Failure> {
        self.tell(OPENING)?;
        self.tell("The station is made of that program, three cells, a stack and a log.")?;
        let policy = AnyPolicy::named(self.policy);
        let site = match Site::make(parts(self.console.heap())?, policy) {
            Ok(site) => site,
            Err(why) => {
                self.console.line(Making(Some(why)))?;
                return Ok(());
            }
        };
        self.console.line(Making(None))?;
        let site = match self.play(site) {
            Ok(site) => site,
            Err(Early::NotTaken(site)) => {
                self.tell("The station does not take that call, so the story ends here.")?;
                self.print_commands(&site)?;
                site
            }
            Err(Early::Failed(failure)) => return Err(failure),
        };
        self.console.line(format_args!("state {}", site.state()))?;
        Ok(())
    }

    // The story of a station that is made.
    fn play(&mut self, site: SharedSite) -> Result<SharedSite, Early> {
        let site = self.play_readings(site)?;
        let site = self.play_first_round(site)?;
        let site = self.play_questions(site)?;
        self.play_second_round(site)
    }

    // The readings are entered, and looked at.
    fn play_readings(&mut self, site: SharedSite) -> Result<SharedSite, Early> {
        self.tell("Each grower's reading is entered into a cell, with that grower's label.")?;
        let site = self.call(site, enter(0, 40, GROWER_0))?;
        let site = self.call(site, enter(1, 25, GROWER_1))?;
        self.tell("Grower 0 is cleared for 0001 and may look at cell 0. Grower 1 may not.")?;
        let site = self.call(site, look(0, GROWER_0))?;
        self.call(site, look(0, GROWER_1))
    }

    // A round in two goes, and its commands.
    fn play_first_round(&mut self, site: SharedSite) -> Result<SharedSite, Early> {
        self.tell("A round starts. The first go has fuel for three steps, which is too little.")?;
        let site = self.call(site, Call::Start)?;
        let site = self.call(site, Call::Go { fuel: 3 })?;
        self.tell("The next go takes the round on from there, to its end.")?;
        let site = self.call(site, Call::Go { fuel: 100 })?;
        self.tell("The commands so far, by place, and whose readings each can carry:")?;
        self.print_commands(&site)?;
        Ok(site)
    }

    // The questions for the next command.
    fn play_questions(&mut self, site: SharedSite) -> Result<SharedSite, Early> {
        self.tell(
            "The next command for whoever is cleared for grower 1 alone (0002): the flush,
and then none, since the other two can carry grower 0's reading.",
        )?;
        let site = self.call(site, next_command(0, GROWER_1))?;
        let site = self.call(site, next_command(1, GROWER_1))?;
        self.tell("For whoever is cleared for both growers (0003) the two come next.")?;
        let site = self.call(site, next_command(1, BOTH))?;
        self.call(site, next_command(2, BOTH))
    }

    // A new reading, and a round in one go.
    fn play_second_round(&mut self, site: SharedSite) -> Result<SharedSite, Early> {
        self.tell("Between two rounds a new reading may be entered, here grower 1's.")?;
        let site = self.call(site, enter(1, 30, GROWER_1))?;
        self.tell("The second round goes to its end at once.")?;
        let site = self.call(site, Call::Start)?;
        let site = self.call(site, Call::Go { fuel: 100 })?;
        self.tell("The log goes on with its commands, of which only the sum differs.")?;
        self.print_commands(&site)?;
        self.tell("For grower 1 alone the flush of this round comes next, and then none again.")?;
        let site = self.call(site, next_command(1, GROWER_1))?;
        self.call(site, next_command(4, GROWER_1))
    }

    // Makes a call and prints it with its answer. One that the station does not take ends the
    // story.
    fn call(&mut self, site: SharedSite, call: Call<Growers>) -> Result<SharedSite, Early> {
        let (site, reply) = site.call(call);
        self.console.line(Answered { call, reply })?;
        match reply {
            Reply::NotTaken(_) => Err(Early::NotTaken(site)),
            _ => Ok(site),
        }
    }

    // Prints the commands so far, and whose readings each can carry.
    fn print_commands(&mut self, site: &SharedSite) -> io::Result<()> {
        let commands = site.commands();
        self.console
            .line(format_args!("commands {}", commands.len()))?;
        for (place, command) in commands.iter().enumerate() {
            self.console.line(Logged {
                place,
                command: *command,
            })?;
        }
        Ok(())
    }

    // Prints what is told between the calls, each line behind a `#`.
    fn tell(&mut self, text: &str) -> io::Result<()> {
        for line in text.lines() {
            self.console.line(format_args!("# {line}"))?;
        }
        Ok(())
    }
}

fn enter(cell: usize, value: i32, label: Growers) -> Call<Growers> {
    let number = Labelled { value, label };
    Call::Enter { cell, number }
}

fn look(cell: usize, clearance: Growers) -> Call<Growers> {
    Call::Look { cell, clearance }
}

fn next_command(from: usize, clearance: Growers) -> Call<Growers> {
    Call::NextCommand { from, clearance }
}

// The four parts, with nothing entered yet.
fn parts(heap: Global) -> Result<Parts<Growers>, AllocError> {
    let nothing = |label| Labelled { value: 0, label };
    Ok(Parts {
        program: program(heap)?,
        memory: vec![in heap; nothing(GROWER_0), nothing(GROWER_1), nothing(BOTH)]?,
        stack: vec![in heap; Entry::Number(nothing(NO_GROWER)); 8]?,
        log: vec![in heap; nothing(NO_GROWER); 16]?,
    })
}

// The program. Its pushed numbers are the installer's own, so
// they are labelled 0000. The comments have the places.
fn program(heap: Global) -> Result<Vec<Operation<Growers>>, AllocError> {
    let push = |value| Operation::Push(Labelled {
        value,
        label: NO_GROWER,
    });
    let subroutine = push(20);
    let call = Operation::Call {
        count: 1,
        due: true,
    };
    let operations = vec![in heap;
        // 0: the flush
        push(5),
        Operation::Output,
        // 2: grower 0's dose
        push(0),
        subroutine,
        call,
        Operation::Output,
        // 6: the sum, kept in cell 2
        push(0),
        subroutine,
        call,
        push(1),
        subroutine,
        call,
        Operation::Add,
        push(2),
        Operation::Store,
        // 15: and put out from there
        push(2),
        subroutine,
        call,
        Operation::Output,
        Operation::Halt,
        // 20: the subroutine, which is handed a cell and gives back the number in it
        Operation::Load,
        Operation::Return,
    ]?;
    Ok(operations)
}
