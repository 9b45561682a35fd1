//! What the texts are made of.

/// A text: what stands first, what is repeated, and what stands last.
#[derive(Clone, Copy)]
pub struct Shape {
    pub front: &'static [u8],
    pub unit: &'static [u8],
    pub back: &'static [u8],
}

/// A module with two vectors, in which something is repeated.
fn items(unit: &'static [u8]) -> Shape {
    Shape {
        front: b"module m(input c, input [3:0] a, output reg [3:0] q);\n",
        unit,
        back: b"endmodule\n",
    }
}

/// A module with one process, in whose block something is repeated.
fn statements(unit: &'static [u8]) -> Shape {
    Shape {
        front: b"module m(input c, input [3:0] a, output reg [3:0] q);\nalways @(posedge c) begin\n",
        unit,
        back: b"end\nendmodule\n",
    }
}

/// A module with one assignment, in whose value something is repeated behind an operand.
fn operands(unit: &'static [u8]) -> Shape {
    Shape {
        front: b"module m(input c, input [3:0] a, output reg [3:0] q);\nalways @(posedge c) q <= {a",
        unit,
        back: b"};\nendmodule\n",
    }
}

impl Shape {
    /// The shape with this name, if there is one.
    pub fn named(name: &str) -> Option<Shape> {
        let shape = match name {
            "processes" => items(
                b"always @(posedge c) if (a[0]) q <= {a[3:1], ~q[0]} + 4'd1; else q[1] <= a == q ? 1'b0 : ^a;\n",
            ),
            "statements" => statements(b"q[a[1:0]] <= a && q || a[3 -: 2] == 2'b10;\n"),
            "nested" => statements(
                b"q <= ((((((((((((((((((((((((((((((((((((((((a))))))))))))))))))))))))))))))))))))))));\n",
            ),
            "row" => operands(b" + a * 2"),
            "parts" => operands(b", {2{a[0]}}"),
            "ports" => Shape {
                front: b"module m(input c",
                unit: b",\n    output reg [7:0] q_7 = 8'hff",
                back: b");\nendmodule\n",
            },
            "name" => Shape {
                front: b"module m",
                unit: b"_7",
                back: b"(input a);\nendmodule\n",
            },
            _ => return None,
        };
        Some(shape)
    }
}
