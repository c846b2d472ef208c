// A shell beside the run that ends programs: those of calls that are out where the run is gone, and
// those of a call where it is told to.
use std::alloc::{AllocError, Global};
use std::io;
use std::io::Read;
use std::os::fd::{AsRawFd, RawFd};
use std::process::{Child, Command, OpenProcess, Processes, Stdio};
use std::time::Clock;

// The variable in a program's environment, and in that of all that it starts, that names its call.
const VARIABLE: &str = "PLAYCHECK_CALL";

// What the shell does. Its word names the run. It is told, a line each:
//     out SLOT CALL HOST   a call of that worker is out, on that host
//     in SLOT              it has come back
//     stop SLOT CALL       its processes are ended by SIGTERM, and by SIGKILL after 5 s
//     kill SLOT CALL       they are ended by SIGKILL
//     end                  the run has ended
// Where its input ends and the run hasn't, the run is gone: the processes of all calls that are out
// are ended, and their hosts are named. A process is one of a call where its environment says so.
const SCRIPT: &str = r#"
trap '' HUP INT QUIT TERM
echo ready
exec >/dev/null
run=$1 slots=
named() {
    grep -lszxF "$1" /proc/[0-9]*/environ
}
send() {
    for file in $(named "$2"); do
        file=${file%/environ}
        kill -s "$1" "${file#/proc/}" 2>/dev/null
    done
}
stop() {
    send TERM "$1"
    looks=50
    while [ "$looks" -gt 0 ] && [ -n "$(named "$1")" ]; do
        sleep 0.1
        looks=$((looks - 1))
    done
    send KILL "$1"
}
while read -r what slot call host; do
    case $what in
    out)
        case " $slots " in
        *" $slot "*) ;;
        *) slots="$slots $slot" ;;
        esac
        eval "call_$slot=\$call host_$slot=\$host"
        ;;
    in) eval "call_$slot=" ;;
    stop) stop "PLAYCHECK_CALL=$run.$slot.$call" & ;;
    kill) send KILL "PLAYCHECK_CALL=$run.$slot.$call" ;;
    end) exit ;;
    esac
done
calls= hosts=
for slot in $slots; do
    eval "call=\$call_$slot host=\$host_$slot"
    if [ -n "$call" ]; then
        calls="${calls}PLAYCHECK_CALL=$run.$slot.$call
" hosts="$hosts $host"
    fi
done
if [ -n "$calls" ]; then
    printf 'playcheck: unfinished calls on%s\n' "$hosts" >&2
    stop "${calls%?}"
fi
"#;

/// Whoever ends programs for a run.
#[derive(Drop)]
pub struct Watchdog<P: OpenProcess + Drop> {
    shell: Child<P>,
    run: Name,
    input: RawFd,
}

// The name of a run: the process, and when it began.
#[derive(Clone, Copy)]
struct Name {
    process: i32,
    began: u64,
}

/// A worker's place at the watchdog, which has to be there as long.
#[derive(Clone, Copy)]
pub struct Watch {
    run: Name,
    input: RawFd,
    slot: u32,
}

impl<P: OpenProcess + Drop> Watchdog<P>
where
    P::Stdin: AsRawFd,
{
    /// Starts the shell, and waits until it listens.
    ///
    /// # Errors
    ///
    /// Where there is no shell, and want of memory.
    pub fn start<R: Processes<Started = P> + Clock>(
        alloc: Global,
        rt: &R,
    ) -> io::Result<Watchdog<P>> {
        let run = Name {
            process: libc::getpid(),
            began: u64::try_from(rt.monotonic()?.as_nanos()).unwrap_or(u64::MAX),
        };
        let mut command = Command::new(alloc, "/bin/sh")?;
        command.arg("-c")?.arg(SCRIPT)?.arg("playcheck-watchdog")?;
        let name = run.text(alloc)?;
        command.arg(name.as_str())?;
        command.stdin(Stdio::piped());
        command.stdout(Stdio::piped());
        let mut shell = command.spawn(rt)?;
        let Some(output) = shell.stdout.take() else {
            return Err(io::Error::from(io::ErrorKind::BrokenPipe));
        };
        let mut output = output;
        let mut ready = [0u8; 8];
        let _ = output.read(&mut ready)?;
        let input = match &shell.stdin {
            Some(input) => input.as_raw_fd(),
            None => return Err(io::Error::from(io::ErrorKind::BrokenPipe)),
        };
        Ok(Watchdog { shell, run, input })
    }

    /// The place of that worker.
    pub fn watch(&self, slot: u32) -> Watch {
        Watch {
            run: self.run,
            input: self.input,
            slot,
        }
    }

    /// The run has ended, and no place is used any more.
    pub fn leave(self) {
        let mut shell = self.shell;
        put(self.input, b"end\n");
        let _ = shell.wait();
    }
}

impl Name {
    fn text(self, alloc: Global) -> Result<String, AllocError> {
        let Name { process, began } = self;
        format!(in alloc; "{process}.{began}")
    }
}

impl Watch {
    /// Marks the program of that call, and all that it starts.
    pub fn mark(self, alloc: Global, command: &mut Command, call: u64) -> Result<(), AllocError> {
        let run = self.run.text(alloc)?;
        let slot = self.slot;
        let value = format!(in alloc; "{run}.{slot}.{call}")?;
        command.env(VARIABLE, value.as_str())?;
        Ok(())
    }

    /// Tells the watchdog what becomes of that call, as well as that goes; whether it was told.
    pub fn say(self, alloc: Global, what: &str, call: u64, host: &str) -> bool {
        let slot = self.slot;
        match format!(in alloc; "{what} {slot} {call} {host}\n") {
            Ok(line) => put(self.input, line.as_bytes()),
            Err(_) => false,
        }
    }
}

// Writes the line whole; whether it was.
fn put(input: RawFd, line: &[u8]) -> bool {
    os::write_no_sigpipe(input, line) == line.len() as isize
}
