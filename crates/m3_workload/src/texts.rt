ghost use Rattle.std.specs.Prelude.{◌≡◌, IfOk};
ghost use Rattle.m3_workload.specs.Schedules.{schedule_of};

use crate::schedules::schedule;
use m3_base::{Bytes, Entry, NoMemory};
use std::alloc::Global;

/// A program, file by file, and the schedule that it runs by.
#[derive(Drop)]
pub struct Workload {
    pub names: Vec<Bytes>,
    pub texts: Vec<Bytes>,
    pub schedule: Vec<Entry>,
}

// How many units stand below Main.
const UNITS: u32 = 20;

const HEAD: &str = "MODULE Main; IMPORT IO, Thread, U0, U1, U2, U3, U4, U5, U6, U7, U8, U9, U10, \
U11, U12, U13, U14, U15, U16, U17, U18, U19;\nCONST N = ";

const BODY: &str = ";
TYPE Node = REF RECORD v: INTEGER; next: Node END;
  Worker = Thread.Closure OBJECT id: INTEGER OVERRIDES apply := Run END;
VAR mu := NEW(MUTEX); total: INTEGER := 0; ts: ARRAY [0..3] OF Thread.T;
PROCEDURE Run(w: Worker): REFANY =
  VAR a := NEW(REF ARRAY OF INTEGER, N); list: Node := NIL; s: INTEGER := 0;
  BEGIN
    FOR i := 0 TO N - 1 DO a[i] := i * w.id; list := NEW(Node, v := a[i], next := list) END;
    FOR i := 0 TO LAST(a^) DO INC(s, a[i]) END;
    WHILE list # NIL DO DEC(s, list.v); list := list.next END;
    LOCK mu DO INC(total, w.id * N + s) END;
    RETURN NIL
  END Run;
BEGIN
  FOR i := 0 TO 3 DO ts[i] := Thread.Fork(NEW(Worker, id := i + 1)) END;
  FOR i := 0 TO 3 DO EVAL Thread.Join(ts[i]) END;
  IO.PutInt(U0.F(U1.F(U2.F(U3.F(U4.F(U5.F(U6.F(U7.F(U8.F(U9.F(U10.F(U11.F(U12.F(U13.F(U14.F(\
U15.F(U16.F(U17.F(U18.F(U19.F(total))))))))))))))))))))); IO.PutChar('\\n')
END Main.";

impl Workload {
    fn add(&mut self, alloc: Global, name: &str, text: &str) -> Result<(), NoMemory>
        ensures schedule { self.new.schedule.items ≡ self.old.schedule.items }
    {
        self.names.push(Bytes::of(alloc, name.as_bytes())?)?;
        self.texts.push(Bytes::of(alloc, text.as_bytes())?)?;
        Ok(())
    }

    /// Adds the interface and the module of a unit, whose procedure adds its number to what it is
    /// given.
    fn add_unit(&mut self, alloc: Global, unit: u32) -> Result<(), NoMemory>
        ensures schedule { self.new.schedule.items ≡ self.old.schedule.items }
    {
        let name = format!(in alloc; "U{unit}.i3")?;
        let text = format!(in alloc;
            "INTERFACE U{unit}; PROCEDURE F(x: INTEGER): INTEGER; END U{unit}."
        )?;
        self.add(alloc, name.as_str(), text.as_str())?;
        let name = format!(in alloc; "U{unit}.m3")?;
        let text = format!(in alloc;
            "MODULE U{unit}; PROCEDURE F(x: INTEGER): INTEGER = BEGIN RETURN x + {unit} END F; \
             BEGIN END U{unit}."
        )?;
        self.add(alloc, name.as_str(), text.as_str())
    }
}

/// The workload of a number: only its last three digits change the program, and all of it the
/// schedule.
pub fn make(alloc: Global, number: u64) -> Result<Workload, NoMemory>
    ensures schedule { IfOk result (λ workload. workload.schedule.items ≡ schedule_of number) }
{
    let mut workload = Workload {
        names: Vec::new(alloc),
        texts: Vec::new(alloc),
        schedule: schedule(alloc, number)?,
    };
    for unit in 0..UNITS {
        workload.add_unit(alloc, unit)?;
    }
    let size = (number % 1000).wrapping_add(1000);
    let text = format!(in alloc; "{HEAD}{size}{BODY}")?;
    workload.add(alloc, "Main.m3", text.as_str())?;
    Ok(workload)
}
