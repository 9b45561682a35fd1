//! What the texts are made of.

/// A text: what stands first, what is repeated, and what stands last.
#[derive(Clone, Copy)]
pub struct Shape {
    pub front: &'static [u8],
    pub unit: &'static [u8],
    pub back: &'static [u8],
}

/// A text that is one unit again and again.
fn repeated(unit: &'static [u8]) -> Shape {
    Shape {
        front: b"",
        unit,
        back: b"",
    }
}

/// A text in which one token, comment or attribute goes from front to back.
fn single(front: &'static [u8], unit: &'static [u8], back: &'static [u8]) -> Shape {
    Shape { front, unit, back }
}

impl Shape {
    /// The shape with this name, if there is one.
    pub fn named(name: &str) -> Option<Shape> {
        let shape = match name {
            "names" => repeated(b"q_7 reset "),
            "keywords" => repeated(b"defparam specify primitive "),
            "numbers" => repeated(b"8'hF_f 4294967295 "),
            "marks" => repeated(b"<<<===!&&(;)"),
            "comments" => repeated(b"/* x */ a // y\n"),
            "attributes" => repeated(b"(* x *) a "),
            "stars" => repeated(b"(* \t )"),
            "one_name" => single(b"a", b"b", b""),
            "one_number" => single(b"128'h", b"0", b""),
            "one_size" => single(b"", b"0", b"8'b1"),
            "one_comment" => single(b"/*", b"* /", b"*/"),
            "one_line" => single(b"//", b"/*(", b""),
            "one_attribute" => single(b"(* ", b"(* ", b"*)"),
            "one_star" => single(b"(*", b" ", b")"),
            _ => return None,
        };
        Some(shape)
    }
}
