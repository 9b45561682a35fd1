//! Texts of trees.
use std::test::Fail;
use tree_text::print_tree;
use vlog_modules::parse;

/// Texts, and what is written for their trees.
const TEXTS: [(&[u8], &[u8]); 3] = [
    (
        b"module t(input c,output reg q);always@(posedge c)if(q)q<=~q;else begin q<=c;end endmodule",
        b"module t ( input c , output reg q ) ;\nalways @ ( posedge c ) if ( q ) q <= ~ q ;\nelse begin q <= c ;\nend endmodule\n",
    ),
    (
        b"module t(input [3:0]a,output reg [3:0]q=4'b0/**/);\nalways @(posedge c)//\n{q[3],q[2:0]}<=a?{2{a[1+:2]}}:{a,b||c};endmodule",
        b"module t ( input [ 3 : 0 ] a , output reg [ 3 : 0 ] q = 4'b0 ) ;\nalways @ ( posedge c ) { q [ 3 ] , q [ 2 : 0 ] } <= a ? { 2 { a [ 1 +: 2 ] } } : { a , b || c } ;\nendmodule\n",
    ),
    (
        b"module m(input a); endmodule",
        b"module m ( input a ) ;\nendmodule\n",
    ),
];

#[test]
fn trees_are_written(rt: HostRuntime) -> Result<(), Fail> {
    for (text, wanted) in TEXTS {
        match parse(rt.alloc(), text) {
            Ok(tree) => {
                let written = print_tree(rt.alloc(), &tree)?;
                assert!(rt; written.as_slice() == wanted);
            }
            Err(_) => return Err("refused".into()),
        }
    }
    Ok(())
}
