//! Four small property files, for tests and for a run without files.

/// A sample of LineBreak.txt.
pub const SAMPLE_LINE_BREAK: &[u8] = b"\
# LineBreak sample
# @missing: 0000..10FFFF; XX
# @missing: 1F000..1FAFF; Ideographic
000A;LF # a comment
000B..000C;BK
000D;CR
0020;SP
0021;EX
0022;QU
0023;AL
0024;PR
0025;PO
0028;OP
0029;CP
002C;IS
002D;HY
002F;SY
0030..0039;NU
0041..005A;AL
0061..007A;AL
007C;BA
007D;CL
0085;NL
00A0;GL
00A7;AI
00B4;BB
0300..034E;CM
05D0..05EA;HL
0E01..0E31;SA
1100;JL
1161;JV
11A8;JT
200B;ZW
200D;ZWJ
2014;B2
2018..2019;QU
2026;IN
2060;WJ
3005;NS
3041;CJ
4E00..9FFF;ID
AC00;H2
AC01;H3
D800..DFFF;SG
FF08;OP
FFFC;CB
1F1E6..1F1FF;RI
1F3FB..1F3FF;EM
1F466..1F478;EB
FEFF;WJ
";

/// A sample of EastAsianWidth.txt.
pub const SAMPLE_EAST_ASIAN: &[u8] = b"\
# EastAsianWidth sample
# @missing: 0000..10FFFF; Neutral
0020..007E;Na
2014;A
20A9;H
3005;W
3041;W
4E00..9FFF;W
AC00..AC01;W
FF08;F
1F3FB..1F3FF;W
1F466..1F478;W
";

/// A sample of DerivedGeneralCategory.txt.
pub const SAMPLE_CATEGORY: &[u8] = b"\
# DerivedGeneralCategory sample
0041..005A    ; Lu # upper
0061..007A    ; Ll
3005          ; Lm
05D0..05EA    ; Lo
0E01..0E30    ; Lo
1100          ; Lo
1161          ; Lo
11A8          ; Lo
3041          ; Lo
4E00..9FFF    ; Lo
AC00..AC01    ; Lo
0300..034E    ; Mn
0E31          ; Mn
0030..0039    ; Nd
0020          ; Zs
00A0          ; Zs
000A..000D    ; Cc
0085          ; Cc
200B          ; Cf
200D          ; Cf
2060          ; Cf
FEFF          ; Cf
D800..DFFF    ; Cs
002D          ; Pd
2014          ; Pd
0028          ; Ps
FF08          ; Ps
0029          ; Pe
007D          ; Pe
2018          ; Pi
2019          ; Pf
0021..0023    ; Po
0025          ; Po
002C          ; Po
002F          ; Po
00A7          ; Po
2026          ; Po
007C          ; Sm
0024          ; Sc
20A9          ; Sc
00B4          ; Sk
1F3FB..1F3FF  ; Sk
FFFC          ; So
1F1E6..1F1FF  ; So
1F466..1F478  ; So
";

/// A sample of emoji-data.txt.
pub const SAMPLE_EMOJI: &[u8] = b"\
# emoji-data sample
0023          ; Emoji                # E0.0
1F466..1F478  ; Emoji                # E0.6
1F3FB..1F3FF  ; Emoji_Modifier       # E1.0
1F466..1F478  ; Extended_Pictographic# E0.6
1FAFF         ; Extended_Pictographic# E0.0
";
