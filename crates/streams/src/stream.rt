// Reads and writes that say so on standard error where they fail.
ghost use Rattle.streams.specs.Received.{IsPrefixLen, Front};

use std::io::Read;

// One read, to the front of lent memory: the bytes that it gave, 0 at the end of the input and where it failed.
fn read_some<R: Read>(input: &mut R, errors: &impl Eprint, memory: &mut [u8]) -> usize
    ensures { IsPrefixLen result memory.new }
{
    match input.read(memory) {
        Ok(got) => got,
        Err(_) => {
            let _ = errors.eprintln("a read from standard input failed");
            0
        }
    }
}

// Reads until the lent memory is full, the input ends or a read fails. How many bytes it put at the front: no contract can say which bytes a read of standard
// input gives; it bounds the count.
pub fn receive<R: Read>(input: &mut R, errors: &impl Eprint, memory: &mut [u8]) -> usize
    ensures { Front result memory.new }
{
    let mut done = 0;
    // By as many bytes as each read gave.
    while done < memory.len() {
        let more = read_some(input, errors, &mut memory[done..]);
        if more == 0 {
            return done;
        }
        done += more;
    }
    done
}

// Writes all the bytes to standard output. It only writes: there is nothing to say of memory.
pub fn send(rt: &(impl Print + Eprint), bytes: &[u8]) {
    if rt.write_all(bytes).is_err() {
        let _ = rt.eprintln("a write to standard output failed or was cut short");
    }
}
