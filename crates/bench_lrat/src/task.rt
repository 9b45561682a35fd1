//! What is asked of the program.
ghost use Rattle.std.specs.Prelude.{◌<◌, ◌≤◌, ◌^◌};

/// The most variables.
const MOST: u32 = 1 << 28;

/// How many variables, and how many lines with additions; how far apart the lines' numbers are, and
/// whether each line deletes the unit that it has used.
#[derive(Clone, Copy)]
pub struct Task {
    pub vars: u32,
    pub lines: u32,
    pub step: u8,
    pub deletes: bool,
    ghost some_variable: { 0 < vars },
    ghost in_range: { vars ≤ 2 ^ 28 },
    ghost no_more_lines: { lines ≤ vars },
}

impl Task {
    /// The task of these words: `chain`, `gaps` or `deletes`, and two numbers.
    pub fn read(rule: &str, vars: &str, lines: &str) -> Option<Task> {
        let (step, deletes) = match rule {
            "chain" => (1, false),
            "gaps" => (3, false),
            "deletes" => (1, true),
            _ => return None,
        };
        let vars = vars.parse::<u32>().ok()?;
        let lines = lines.parse::<u32>().ok()?;
        if vars == 0 || vars > MOST || lines > vars {
            return None;
        }
        Some(Task {
            vars,
            lines,
            step,
            deletes,
        })
    }
}
