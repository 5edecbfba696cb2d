//! Programs that the typing rules refuse, with the number and the place of the refusal.
//! They must not take a place from the program: each was computed apart from it by the typing rules.

/// A source, and the number and the place of its refusal.
pub type RefusedCase = (&'static str, (u8, u64));

/// The first refusal under the least facts.
pub const REFUSED: [RefusedCase; 47] = [
    ("∇MAIN;A\nA←1\nL:A\nA←A+1 1\n→L\n∇\n", (17, 18)),
    ("∇MAIN;A\nA←1\n→A\nA←'x'\nA\n∇\n", (17, 29)),
    ("∇MAIN\nF 1\nF 2 3\n∇\n∇F X\nX\n∇\n", (18, 29)),
    (
        "∇MAIN\n1+F 0\n∇\n∇R←F X\n→(X=0)/L\nR←5\n→0\nL:R←1 2\n∇\n",
        (18, 10),
    ),
    ("∇MAIN\nA←1\nG\nA\n∇\n∇G\nA←2 3\n∇\n", (18, 16)),
    ("VAR A NUM RANK 1\n∇MAIN\nA←1\n∇\n", (21, 25)),
    ("∇MAIN\n(2 2⍴1)+1 2\n∇\n", (18, 17)),
    ("∇MAIN\n(⎕NUMS)⍴5\n∇\n", (19, 17)),
    ("∇MAIN\n→(⍞)/L\nL:1\n∇\n", (17, 16)),
    ("∇MAIN\nF 'abc'+1\n∇\n∇R←F B\nR←B\n∇\n", (17, 8)),
    (
        "∇MAIN\n⍉2 3⍴'abcdef'\n⌽[1]2 3⍴0\n⊖[2]2 3⍴0\n⌽[3]2 3⍴0\n∇\n",
        (22, 54),
    ),
    (
        "ORIGIN 0\n∇MAIN\n+/[0]2 3⍴⍳6\n1 0⍉2 3⍴⍳6\n2 1⍉2 3⍴⍳6\n∇\n",
        (22, 53),
    ),
    ("∇MAIN\n(⍳3)∊⍳5\n(2 2⍴0)⍳1\n∇\n", (18, 31)),
    ("∇MAIN\nA←3 3⍴0\nA[1;2]←5\nA[;1]←'x'\n∇\n", (17, 31)),
    (
        "∇MAIN\nA←3 3⍴0\nA[1 2;3]←5 6\nA[;1]←1 2\nA[1;]←2 2⍴0\n∇\n",
        (18, 47),
    ),
    ("∇MAIN\nG←1\nH\nG\n∇\n∇H\n→K\nG←'c'\nK:G\n∇\n", (17, 16)),
    (
        "∇MAIN;A;B;C\nA←'abc'\nB←¯1 2 5\nA G B\n(1)≤1 0\n(⍳0)<(B)∧A\nA\n∇\n∇R←F X;T\nT←X\nR←X\n∇\n∇A G C\nC+1\n∇\n",
        (17, 62),
    ),
    ("∇MAIN\nA←1 2 3\nB←0 1 0\n×A←7\nC\nA+B\n∇\n", (18, 38)),
    (
        "∇MAIN;A;B;C\nA←1 2 3\nB←¯1 2 5\nC←''-¯4 3 2 ¯4×9223372036854775807\n1\n∇\n",
        (17, 42),
    ),
    (
        "∇MAIN\nA←1 2 3\nB←3\nF A\nC←0>1-C\n'abc'>¯4 3 10 ¯4\nC←2 1\n1\n∇\n∇R←F X;T\nT←X\nR←-T\n∇\n∇A G C\nC+1\n∇\n",
        (17, 43),
    ),
    (
        "∇MAIN;A;B;C\nA←5\nB←0 1 0\n∧⌿⎕←1\n((+\\1 2 2 ¯4)[(⍳0);1 2 3])[¯1≤⌈\\(2 3⍴⍳6)]\n¯4 3 1 3\n((⍳C)<0∨B)\nA+B\n∇\n",
        (18, 58),
    ),
    (
        "∇MAIN;A;B;C\nA←2 2⍴1 2 3 4\nB←¯1 2 5\n(10 ¯4-C)\nA+B\n∇\n",
        (18, 56),
    ),
    ("∇MAIN;A;B;C\nA←'abc'\nB←3\nA⌊¯1\nA+B\n∇\n", (17, 31)),
    (
        "∇MAIN;A;B;C\nA←5\nB←0 1 0\nC←A<C\nC←C×''|10 ¯4 ¯4\nC←B←(((2 3⍴⍳6))∊0 0 3)≠10 2≤1\n1\n∇\n",
        (17, 47),
    ),
    (
        "∇MAIN;C\nA←'abc'\nB←3\n3 10\nC←3 1 3⌈2 2∨A\nA\n∇\n",
        (17, 46),
    ),
    (
        "∇MAIN;C\nA←2 2⍴1 2 3 4\nB←¯1 2 5\nC←×3 0\n2∘.+-2 10≥2 ¯4 1\n(¯1|1 1)[;1 ¯4 3]\nC←(C∘.×C)⌈.+¯4 ¯4 0-(2 3⍴⍳6)\nA+B\n∇\n",
        (18, 81),
    ),
    ("∇MAIN;C\nA←1 2 3\nB←3\nB['a']←⎕←3 ¯4 10\n1\n∇\n", (17, 26)),
    (
        "∇MAIN\nA←1 2 3\nB←¯1 2 5\nC←7-B∘.+B←2\n,⎕←C←1\n1\n∇\n",
        (18, 36),
    ),
    (
        "∇MAIN;C\nA←2 2⍴1 2 3 4\nB←3\nC←(⍳4)\n'a'[B∘.+¯1]\nB\n∇\n",
        (18, 48),
    ),
    (
        "∇MAIN;C\nA←2 2⍴1 2 3 4\nB←0 1 0\nC←0,(B)-.+B\nA+B\n∇\n",
        (18, 53),
    ),
    (
        "∇MAIN;A;B;C\nA←2 2⍴1 2 3 4\nB←3\n'a'-0\n1+(⍳0)\nC⍳0\nA\n∇\n",
        (17, 41),
    ),
    (
        "∇MAIN\nA←'abc'\nB←¯1 2 5\n1+F B\nC←(B←1 10 10)⌊B←(⍳0)\n1=¯4 3\n(9223372036854775807∘.-2)∧(9223372036854775807)=C\nA+B\n∇\n∇R←F X;T\nT←X\nR←T+X\n∇\n∇A G C\nA-C\n∇\n",
        (17, 130),
    ),
    (
        "∇MAIN;A;B;C\nA←1 2 3\nB←3\nC←0\\(10 0<(3 2⍴1 0 1))⌈-1 3 2\n1\n∇\n",
        (18, 41),
    ),
    (
        "∇MAIN;A;B;C\nA←'abc'\nB←¯1 2 5\nC←¯1∧(C)≠B\nC←(''∘.-'it''s')+'a'=1 1 ¯4\n3⌈1⌈'a'|(⍳0)\nC←A+B+(⍳0)\nA\n∇\n",
        (17, 61),
    ),
    (
        "∇MAIN;C\nA←2 2⍴1 2 3 4\nB←¯1 2 5\n(⍴0)⍲C≤B\n(1⌈.≠⌈A)∘.×''⍱¯4 0 3[2;1]\n⎕←A⌈¯4 ¯4 2 3\nA+B\n∇\n",
        (18, 87),
    ),
    (
        "∇MAIN;A;B;C\nA←'abc'\nB←0 1 0\nA G B\nC←3 2 0⌽⎕←7\n(⎕←''⌊C)⍲A-0>7\n(''<|'it''s')\nB\n∇\n∇R←F X;T\nT←X\nR←-T\n∇\n∇A G C\nC+1\n∇\n",
        (18, 49),
    ),
    (
        "∇MAIN;A;B;C\nA←'abc'\nB←0 1 0\nF A\n~9223372036854775807\nC←⎕←1 10\nA+B\n∇\n∇R←F X;T\nT←X\nR←-T\n∇\n∇A G C\nA\n∇\n",
        (17, 34),
    ),
    ("∇MAIN;C\nA←2 2⍴1 2 3 4\nB←0 1 0\nA\nA+B\n∇\n", (18, 41)),
    (
        "∇MAIN;A;B;C\nA←2 2⍴1 2 3 4\nB←¯1 2 5\nA G B\n0 ¯4 10-1 3 10⌊¯4 0 ¯4 10\nC←(C×¯4 1 2)[;0]\nA+B\n∇\n∇R←F X;T\nT←X\nR←T×2 3 4\n∇\n∇A G C\nA\n∇\n",
        (18, 103),
    ),
    (
        "∇MAIN\nA←5\nB←0 1 0\n3 2⍲0 0\n(1)+'abc'\nB←2\n3[A['a']←'abc']\nB\n∇\n",
        (17, 37),
    ),
    (
        "∇MAIN;C\nA←2 2⍴1 2 3 4\nB←¯1 2 5\n'a'⊖2 2\nA+B\n∇\n",
        (17, 43),
    ),
    ("VAR A NUM RANK 0\n∇MAIN\nA←'abc'+1\n∇\n", (21, 25)),
    ("VAR A NUM RANK 0\n∇MAIN\n1+A←'abc'\n∇\n", (21, 27)),
    ("∇MAIN\nB\nB←A\nA←1\nA←1 2\n∇\n", (17, 8)),
    ("∇MAIN;A\nA←'abc'\nA[X]←'z'\n1+A\n∇\n", (17, 32)),
    ("∇MAIN\nA←2 1\nA⍉2 3⍴0\n∇\n", (20, 17)),
    ("∇MAIN\n'abc'+1\n∇\n", (17, 13)),
];
