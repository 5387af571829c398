//! How the parts of a picture look, and what its signs mean.

/// With what each picture begins.
pub const OPENING: &[u8] = b"<svg xmlns=\"http://www.w3.org/2000/svg\" role=\"img\"";

/// What each picture is, how its parts look, the signs, and a legend of these. Colours are those of Okabe and Ito, which people who see
/// few colours can tell apart, but for the red of what failed; each sign has a shape or letters of its own besides.
pub const SIGNS: &[u8] = b"<title>A journal of coordinated atomic actions</title>
<desc>Time goes downwards. Each participant has a lane, each entry a row, and each place a box. A hatched stretch is one in which its participant may make no entry by the rules.</desc>
<style>
text{font:10px sans-serif}
.ground{fill:#fff}
.says{paint-order:stroke;stroke:#fff;stroke-width:3px}
.name{font-weight:bold;font-size:13px}
.number{fill:#555;font-size:10px;text-anchor:end}
.lane{stroke:#bbb;stroke-dasharray:1 4}
.place{fill:#000;fill-opacity:.05}
.edge{stroke:#555}
.action{fill:#333;font-weight:bold}
.turn{fill:#777}
.body{fill:#56B4E9}
.handler{fill:#E69F00;stroke:#000}
.wait{fill:url(#hatch);stroke:#555;stroke-dasharray:3 2}
.awaits{fill:#444;font-style:italic}
.joint{stroke:#000;stroke-dasharray:6 3;stroke-opacity:.5}
.joined{stroke:#000;stroke-width:3}
.break{stroke:#C00000;stroke-width:2}
.broken{fill:#C00000;font-weight:bold}
.sign{text-anchor:middle;font-size:9px;font-weight:bold}
.white{fill:#fff}
@media (prefers-color-scheme:dark){.ground{fill:#1b1b1b}.says{fill:#eee;stroke:#1b1b1b}.name,.action,.legend{fill:#eee}.awaits,.number{fill:#bbb}.place{fill:#fff;fill-opacity:.07}.edge,.lane,.joint,.joined{stroke:#aaa}.turn{fill:#aaa}.broken{fill:#ff7b72}}
@media print{.ground{fill:#fff}.says,.name,.action,.legend{fill:#000}.says{stroke:#fff}.awaits,.number{fill:#444}.place{fill:#000;fill-opacity:.05}.edge,.lane,.joint,.joined{stroke:#555}}
</style>
<defs>
<pattern id=\"hatch\" width=\"6\" height=\"6\" patternUnits=\"userSpaceOnUse\" patternTransform=\"rotate(45)\"><rect width=\"6\" height=\"6\" fill=\"#fff\"/><line y2=\"6\" stroke=\"#555\" stroke-width=\"2\"/></pattern>
<g id=\"arrive\"><path d=\"M-6-6L6 0L-6 6Z\" fill=\"#fff\" stroke=\"#000\"/></g>
<g id=\"withdraw\"><path d=\"M6-6L-6 0L6 6Z\" fill=\"#777\" stroke=\"#000\"/></g>
<g id=\"start\"><circle r=\"7\" fill=\"#009E73\"/><text class=\"sign white\" y=\"3\">S</text></g>
<g id=\"read\"><circle r=\"6\" fill=\"#fff\" stroke=\"#000\"/><text class=\"sign\" y=\"3\">r</text></g>
<g id=\"work\"><circle r=\"6\" fill=\"#fff\" stroke=\"#000\"/><circle r=\"2\"/></g>
<g id=\"write\"><circle r=\"6\" fill=\"#fff\" stroke=\"#000\"/><text class=\"sign\" y=\"3\">w</text></g>
<g id=\"check\"><circle r=\"6\" fill=\"#fff\" stroke=\"#000\"/><text class=\"sign\" y=\"3\">?</text></g>
<g id=\"putfault\"><path d=\"M-7-7H7V7H-7Z\" fill=\"#D55E00\"/><text class=\"sign white\" y=\"3\">!</text></g>
<g id=\"raise\"><path d=\"M0-9L9 0L0 9L-9 0Z\" fill=\"#D55E00\"/><text class=\"sign white\" y=\"3\">R</text></g>
<g id=\"inform\"><path d=\"M0-9L9 0L0 9L-9 0Z\" fill=\"#fff\" stroke=\"#D55E00\" stroke-width=\"2\"/><text class=\"sign\" y=\"3\">i</text></g>
<g id=\"resolve\"><path d=\"M-9 0L-5-7H5L9 0L5 7H-5Z\" fill=\"#CC79A7\" stroke=\"#000\"/><text class=\"sign\" y=\"3\">=</text></g>
<g id=\"handle\"><path d=\"M-7-7H7V7H-7Z\" fill=\"#E69F00\" stroke=\"#000\"/><text class=\"sign\" y=\"3\">H</text></g>
<g id=\"verdict\"><rect x=\"-8\" y=\"-7\" width=\"16\" height=\"14\" rx=\"6\" fill=\"#0072B2\"/><text class=\"sign white\" y=\"3\">V</text></g>
<g id=\"verdict-1\"><rect x=\"-8\" y=\"-7\" width=\"16\" height=\"14\" rx=\"6\" fill=\"#0072B2\"/><text class=\"sign white\" y=\"3\">Vs</text></g>
<g id=\"verdict-2\"><rect x=\"-8\" y=\"-7\" width=\"16\" height=\"14\" rx=\"6\" fill=\"#F0E442\" stroke=\"#000\"/><text class=\"sign\" y=\"3\">Vu</text></g>
<g id=\"abort\"><path d=\"M0-9L9 0L0 9L-9 0Z\" stroke=\"#fff\"/><text class=\"sign white\" y=\"3\">A</text></g>
<g id=\"abort-1\"><path d=\"M0-9L9 0L0 9L-9 0Z\" stroke=\"#D55E00\" stroke-width=\"2\"/><text class=\"sign white\" y=\"3\">Ax</text></g>
<g id=\"undo\"><path d=\"M-7-7H7V7H-7Z\" fill=\"#F0E442\" stroke=\"#000\"/><text class=\"sign\" y=\"3\">U</text></g>
<g id=\"restore\"><circle r=\"7\" fill=\"#F0E442\" stroke=\"#000\"/><text class=\"sign\" y=\"3\">b</text></g>
<g id=\"restore-1\"><path d=\"M-11-11H11V11H-11Z\" fill=\"#C00000\" stroke=\"#fff\"/><path d=\"M-7-7L7 7M7-7L-7 7\" stroke=\"#fff\" stroke-width=\"3\"/></g>
<g id=\"end\"><path d=\"M-7-7H7V7H-7Z\" fill=\"#009E73\" stroke=\"#000\"/><text class=\"sign white\" y=\"3\">E</text></g>
<g id=\"end-1\"><path d=\"M-7-7H7V7H-7Z\" fill=\"#0072B2\" stroke=\"#000\"/><text class=\"sign white\" y=\"3\">Es</text></g>
<g id=\"end-2\"><path d=\"M-7-7H7V7H-7Z\" fill=\"#F0E442\" stroke=\"#000\"/><text class=\"sign\" y=\"3\">Eu</text></g>
<g id=\"end-3\"><path d=\"M-7-7H7V7H-7Z\" stroke=\"#fff\"/><text class=\"sign white\" y=\"3\">Ea</text></g>
<g id=\"end-4\"><path d=\"M-9-9H9V9H-9Z\" fill=\"#C00000\" stroke=\"#fff\"/><text class=\"sign white\" y=\"3\">Ef</text></g>
<g id=\"leave\"><path d=\"M6-6L-6 0L6 6Z\" fill=\"#fff\" stroke=\"#000\"/></g>
<g id=\"leave-1\"><path d=\"M6-6L-6 0L6 6Z\" fill=\"#D55E00\" stroke=\"#000\"/></g>
</defs>
<rect class=\"ground\" width=\"100%\" height=\"100%\"/>
<use href=\"#arrive\" x=\"20\" y=\"16\"/><text class=\"legend\" x=\"34\" y=\"20\">arrives</text>
<use href=\"#withdraw\" x=\"128\" y=\"16\"/><text class=\"legend\" x=\"142\" y=\"20\">goes away</text>
<use href=\"#start\" x=\"236\" y=\"16\"/><text class=\"legend\" x=\"250\" y=\"20\">start</text>
<use href=\"#read\" x=\"344\" y=\"16\"/><text class=\"legend\" x=\"358\" y=\"20\">reads</text>
<use href=\"#work\" x=\"452\" y=\"16\"/><text class=\"legend\" x=\"466\" y=\"20\">works</text>
<use href=\"#write\" x=\"560\" y=\"16\"/><text class=\"legend\" x=\"574\" y=\"20\">writes</text>
<use href=\"#check\" x=\"668\" y=\"16\"/><text class=\"legend\" x=\"682\" y=\"20\">checks</text>
<use href=\"#putfault\" x=\"776\" y=\"16\"/><text class=\"legend\" x=\"790\" y=\"20\">put refused</text>
<use href=\"#raise\" x=\"20\" y=\"40\"/><text class=\"legend\" x=\"34\" y=\"44\">raises</text>
<use href=\"#inform\" x=\"128\" y=\"40\"/><text class=\"legend\" x=\"142\" y=\"44\">is told</text>
<use href=\"#resolve\" x=\"236\" y=\"40\"/><text class=\"legend\" x=\"250\" y=\"44\">resolved</text>
<use href=\"#handle\" x=\"344\" y=\"40\"/><text class=\"legend\" x=\"358\" y=\"44\">handler</text>
<use href=\"#verdict\" x=\"452\" y=\"40\"/><text class=\"legend\" x=\"466\" y=\"44\">verdict done</text>
<use href=\"#verdict-1\" x=\"560\" y=\"40\"/><text class=\"legend\" x=\"574\" y=\"44\">verdict signal</text>
<use href=\"#verdict-2\" x=\"668\" y=\"40\"/><text class=\"legend\" x=\"682\" y=\"44\">verdict undo</text>
<use href=\"#abort\" x=\"776\" y=\"40\"/><text class=\"legend\" x=\"790\" y=\"44\">gives up</text>
<use href=\"#abort-1\" x=\"20\" y=\"64\"/><text class=\"legend\" x=\"34\" y=\"68\">gives up, names</text>
<use href=\"#undo\" x=\"128\" y=\"64\"/><text class=\"legend\" x=\"142\" y=\"68\">undo</text>
<use href=\"#restore\" x=\"236\" y=\"64\"/><text class=\"legend\" x=\"250\" y=\"68\">set back</text>
<use href=\"#restore-1\" x=\"344\" y=\"64\"/><text class=\"legend\" x=\"358\" y=\"68\">restore refused</text>
<use href=\"#end\" x=\"452\" y=\"64\"/><text class=\"legend\" x=\"466\" y=\"68\">end commit</text>
<use href=\"#end-1\" x=\"560\" y=\"64\"/><text class=\"legend\" x=\"574\" y=\"68\">end signal</text>
<use href=\"#end-2\" x=\"668\" y=\"64\"/><text class=\"legend\" x=\"682\" y=\"68\">end undone</text>
<use href=\"#end-3\" x=\"776\" y=\"64\"/><text class=\"legend\" x=\"790\" y=\"68\">end aborted</text>
<use href=\"#end-4\" x=\"20\" y=\"88\"/><text class=\"legend\" x=\"34\" y=\"92\">end failed</text>
<use href=\"#leave\" x=\"128\" y=\"88\"/><text class=\"legend\" x=\"142\" y=\"92\">leaves</text>
<use href=\"#leave-1\" x=\"236\" y=\"88\"/><text class=\"legend\" x=\"250\" y=\"92\">leaves, raising</text>
<rect class=\"body\" x=\"336\" y=\"83\" width=\"18\" height=\"10\"/><text class=\"legend\" x=\"358\" y=\"92\">in its body</text>
<rect class=\"handler\" x=\"444\" y=\"83\" width=\"18\" height=\"10\"/><text class=\"legend\" x=\"466\" y=\"92\">in its handler</text>
<rect class=\"turn\" x=\"552\" y=\"87\" width=\"18\" height=\"2\"/><text class=\"legend\" x=\"574\" y=\"92\">may go on</text>
<rect class=\"wait\" x=\"660\" y=\"83\" width=\"18\" height=\"10\"/><text class=\"legend\" x=\"682\" y=\"92\">has to wait</text>
";
