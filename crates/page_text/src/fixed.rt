//! What is the same in each page: how it looks, and the script that shows its data.

/// What stands before the data: the looks of a page, and its empty frame.
pub const FRONT: &[u8] = b"<!doctype html>
<html lang='en'>
<meta charset='utf-8'>
<meta name='viewport' content='width=device-width'>
<title>caa</title>
<style>
:root{color-scheme:light dark;--paper:#fff;--ink:#111;--faint:#666;--rule:#ccc;--now:#fe9;--stand:#cfe8fa;--body:#56B4E9;--handler:#E69F00;--bad:#c22;--box:0,0,0}
@media(prefers-color-scheme:dark){:root{--paper:#181818;--ink:#eee;--faint:#aaa;--rule:#444;--now:#564a10;--stand:#17405c;--bad:#ff7b6b;--box:255,255,255}}
*{box-sizing:border-box}
body{margin:0;height:100vh;display:grid;grid-template:auto 1fr/auto minmax(40ch,1fr) 46ch;font:12px/1.5 monospace;background:var(--paper);color:var(--ink)}
header{grid-column:1/-1;display:flex;flex-wrap:wrap;gap:4px 12px;align-items:center;padding:4px 8px;border-bottom:1px solid var(--rule)}
header b{font-size:14px}#step{flex:1 1 16ch}#told{min-width:34ch}.bad,#state .waits{color:var(--bad)}#ends td{cursor:pointer}#state .waits{cursor:pointer;text-decoration:underline dotted}.later{opacity:.6}#status.bad{font-weight:bold}
button,select,input{font:inherit}
#script{width:26ch;min-width:14ch;max-width:50vw;resize:horizontal}
main,aside{overflow:auto;border-right:1px solid var(--rule);position:relative}
.all{position:relative}.row{position:absolute;left:0;height:20px;line-height:20px;white-space:pre;cursor:pointer;min-width:100%}
.no{position:sticky;left:0;display:inline-block;width:7ch;padding-right:1ch;text-align:right;color:var(--faint);background:var(--paper);z-index:1}
.now,.now .no{background:var(--now)}.stands,.stands .no{background:var(--stand)}.row i{font-style:normal;font-size:10px;color:var(--faint)}
u{text-decoration:wavy underline var(--bad)}
#heads{position:sticky;top:0;z-index:2;background:var(--paper);border-bottom:1px solid var(--rule);height:20px;white-space:pre;min-width:100%;width:max-content}
#heads b,.lane{display:inline-block;position:relative;height:20px;vertical-align:top;overflow:hidden}
.lane{padding-left:22px;border-left:1px dotted var(--rule)}
.place{position:absolute;top:0;bottom:0;left:1px;right:1px;background:rgba(var(--box),.06)}
.does{position:absolute;top:0;bottom:0;left:9px;width:6px}
.does.body{background:var(--body)}.does.handler{background:var(--handler)}.does.may{width:2px;left:11px;background:var(--faint)}
.does.waits{background:repeating-linear-gradient(45deg,var(--faint) 0 2px,transparent 2px 5px);outline:1px dashed var(--faint)}
.sign{position:absolute;left:4px;top:2px;width:16px;height:16px;line-height:16px;border-radius:8px;text-align:center;font-size:10px;font-weight:bold;background:#fff;color:#000;outline:1px solid #000;z-index:1}
.sign.raise{background:#D55E00;color:#fff;border-radius:2px;transform:rotate(45deg)}.sign.inform{border-radius:2px;outline:2px solid #D55E00}
.sign.resolve,.sign.handle{background:#CC79A7}.sign.handle{background:#E69F00;border-radius:2px}.sign.verdict{background:#0072B2;color:#fff}
.sign.undo,.sign.restore{background:#F0E442}.sign.end,.sign.abort{background:#000;color:#fff;border-radius:2px}.sign.start,.sign.commit{background:#009E73;color:#fff}
.sign.failed,.sign.putfault{background:#e00000;color:#fff;width:20px;left:2px;outline:2px solid #e00000;border-radius:0}.failed~span{color:var(--bad);font-weight:bold}
.fold{position:sticky;left:7ch;cursor:pointer}
h2{font-size:12px;margin:8px 8px 2px}table{border-collapse:collapse;margin:0 8px}td,th{padding:1px 6px 1px 0;vertical-align:top;text-align:left;font-weight:normal}
tr.by td:first-child,tr.changed td{font-weight:bold}#state td{border-bottom:1px solid var(--rule)}pre{margin:2px 8px;overflow:auto}summary{padding:4px 8px;cursor:pointer}
svg{display:block;max-width:none}svg text{fill:currentColor;font:12px monospace;text-anchor:middle}svg rect{fill:none;stroke:currentColor}svg path{fill:none;stroke:currentColor}svg .dashed{stroke-dasharray:4 3}
@media print{body{display:block;height:auto}main,aside{overflow:visible;border:0}input,select,button{display:none}}
</style>
<header><b id='file'></b><span id='status'></span><input id='step' type='range' min='0' value='0' aria-label='entries taken in'><span id='told' role='status' aria-live='polite'></span><label>participant <select id='whom'><option value=''>all</option></select></label><label>place <select id='where'><option value=''>all</option></select></label><label>kind <select id='what'><option value=''>all</option></select></label></header>
<main id='script' aria-label='script'><div class='all'></div></main>
<main id='journal' aria-label='journal'><div id='heads'></div><div class='all'></div></main>
<aside><div id='after'><div id='come'><h2>What came of it</h2><table id='ends'></table></div><h2>Who may do what</h2><table id='state'></table><h2>Objects</h2><table id='objects'></table></div><pre id='why'></pre><details><summary>Who handles what</summary><pre id='table'></pre></details><details open><summary>Signs and keys</summary><pre>blue         is in its body
orange       is in a handler
hatched      waits
thin         is in a place, and may go on
pale         comes later
red words    what is waited for; a click
             leads to what ends the wait
-            folds what is done in a place
arrows       a step on or back
shift+arrows the same maker's next entry
r            the next raise
f            the next refused restore
Home, End    the first, the last</pre></details><details open><summary>Graphs</summary><div id='graphs'></div></details></aside>
<script type='application/json' id='data'>
[";

/// What stands behind the data: the script that shows it. It asks nothing of any network, and runs nothing that the data holds.
pub const BACK: &[u8] = b"0]
</script>
<script>
'use strict';
const trim = x => Array.isArray(x) ? (x.pop(), x.map(trim)) : x;
const utf8 = new TextDecoder(), text = s => utf8.decode(Uint8Array.from(s, c => c.charCodeAt(0)));
const [FILE, STATUS, SCRIPT, FAULTS, TABLE, GRAPHS, WHO, OBJECTS, PLACES, FIRST, ENTRIES, WHY] = trim(JSON.parse(document.getElementById('data').textContent));
const $ = id => document.getElementById(id), ROW = 20, MOST = 8e6, STRIDE = 1024;
const make = (tag, name, words, title) => { const e = document.createElement(tag); if (name) e.className = name; if (words) e.append(words); if (title) e.title = title; return e; };
const words = k => ENTRIES[k][0].trim().split(' '), place = n => n ? `${n - 1} ${PLACES[n - 1][0]}` : 'nowhere';
const rounds = n => { const all = []; for (; n; n = PLACES[n - 1][1]) all.push(n); return all; };
// What each line of the script belongs to, and which lines the journal comes to.
let inside = ''; const sections = SCRIPT.map(line => { const w = text(line).trim().split(/[ \\t\\r]+/)[0]; if (/^(body|handler)$/.test(w)) inside = w; else if (/^(end|action|graph|play)$/.test(w)) inside = ''; return inside; });
// The states, remembered at every so many entries, and followed from there.
const take = (s, k) => { for (const c of ENTRIES[k].slice(1)) s.who[c[0]] = c; const w = words(k), o = OBJECTS.findIndex(it => it[0] == w[3]); if (w[0] == 'write' || w[0] == 'restore' && w[5] == 'well') s.values[o] = w[4]; };
const copy = s => ({ who: s.who.slice(), values: s.values.slice() });
const marks = []; { const s = { who: FIRST.slice(), values: OBJECTS.map(o => o[1]) }; ENTRIES.forEach((_, k) => { if (k % STRIDE == 0) marks.push(copy(s)); take(s, k); }); if (!marks.length) marks.push(s); }
const at = n => { let k = Math.min(Math.floor(n / STRIDE), marks.length - 1); const s = copy(marks[k]); for (k *= STRIDE; k < n; k++) take(s, k); return s; };
// A list of which only the rows in the window are drawn.
const list = (box, count, draw) => { const all = box.querySelector('.all'); let spare = 0;
  const show = () => { const n = count(), high = Math.min(n * ROW, MOST), seen = Math.ceil(box.clientHeight / ROW) + 2; all.style.height = high + 'px';
    const share = high < n * ROW ? box.scrollTop / Math.max(1, high - box.clientHeight) * (n - seen + 3) : box.scrollTop / ROW, first = Math.max(0, Math.min(Math.floor(share), n - 1)); spare = first;
    all.replaceChildren(); for (let k = first; k < Math.min(n, first + seen); k++) { const row = draw(k, k == first); row.classList.add('row'); row.style.top = (high < n * ROW ? box.scrollTop + (k - first) * ROW : k * ROW) + 'px'; all.append(row); } };
  const reach = k => { const n = count(), high = Math.min(n * ROW, MOST), seen = Math.floor(box.clientHeight / ROW) - 3; all.style.height = high + 'px'; if (k < spare || k >= spare + seen) box.scrollTop = (high < n * ROW ? k / n * high : k * ROW) - box.clientHeight / 2; show(); };
  box.addEventListener('scroll', show); window.addEventListener('resize', show); return { show, reach }; };
const BROKE = / the journal breaks off here/.test(text(WHY));
let now = 0, state = at(0), before = state, rows = null; const folded = new Set();
const size = () => rows ? rows.length : ENTRIES.length, entry = r => rows ? rows[r] : r, row_of = k => rows ? rows.findLastIndex(it => it <= k) : k;
const standing = c => [c[3] == 0 ? 'is through' : c[3] < 3 ? 'may: ' + c[4].map(line => line.trim()).join('\\nor, where the device refuses: ') : waits(c), c[3] > 2];
const names = all => all.map(p => WHO[p]).join(', ') || 'nobody';
const things = all => all.flatMap((o, k) => k % 2 ? [] : [OBJECTS[o][0] + ', held by ' + (all[k + 1] ? 'place ' + place(all[k + 1]) : 'nobody')]).join('; ') || 'its objects';
const waits = c => { const lack = c[3] - 3; return lack == 1 || lack == 5 ? 'waits for ' + things(c[5]) : ['waits until all are there: ', '', 'waits until all are told, or raise something: ', 'waits for the verdicts of ', 'waits until all give up: ', '', 'waits'][lack] + (lack < 6 ? names(c[5]) : ''); };
// The script, with the lines lit at which somebody stands.
const script = list($('script'), () => SCRIPT.length, k => { const line = text(SCRIPT[k]), here = state.who.filter(c => c[2] == k + 1), row = make('div', here.length ? ENTRIES.length && now && here.some(c => WHO[c[0]] == words(now - 1)[2]) ? 'now' : 'stands' : '');
  row.append(make('span', 'no', String(k + 1))); let from = 0; for (const [n, column, width, why] of FAULTS) if (n == k + 1) { row.append(line.slice(from, column - 1), make('u', '', line.slice(column - 1, column - 1 + width) || ' ', why)); from = column - 1 + width; }
  row.append(line.slice(from)); if (here.length) row.append(make('i', '', '  ' + names(here.map(c => c[0])))); row.onclick = () => { const s = at(now); for (let n = now; n < ENTRIES.length; n++) { take(s, n); if (s.who.some(c => c[2] == k + 1)) return go(n + 1); } }; return row; });
// The journal, a row an entry, a lane a participant.
const saying = w => w[0] == 'arrive' || w[0] == 'start' ? `${w[0]} ${place(+w[1] + 1)}` : w.toSpliced(1, 2).join(' ');
const WIDE = WHO.map(n => Math.max(24, n.length + 4)); { const who = new Map(WHO.map((n, p) => [n, p])); ENTRIES.forEach((_, k) => { const w = words(k), p = who.get(w[2]); WIDE[p] = Math.max(WIDE[p], saying(w).length + 5); }); }
const wide = p => WIDE[p] + 'ch', SIGNS = { arrive: '>', withdraw: '<', start: 'S', read: 'r', work: '*', write: 'w', check: '?', putfault: '!', raise: 'R', inform: 'i', resolve: '=', handle: 'H', verdict: 'V', abort: 'A', undo: 'U', restore: 'b', end: 'E', leave: '<' };
let drawn = null;
const lane = (p, k, w) => { const c = drawn.who[p], e = make('span', 'lane'); e.style.width = wide(p); rounds(c[1]).forEach((n, d) => { const b = make('span', 'place', '', 'place ' + place(n)); b.style.left = 1 + 3 * (rounds(c[1]).length - 1 - d) + 'px'; b.style.right = b.style.left; e.append(b); });
  if (c[1]) e.append(make('span', 'does ' + (c[3] > 2 ? 'waits' : c[2] && sections[c[2] - 1] || 'may'), '', standing(c)[0]));
  if (WHO[p] == w[2]) { const last = w[0] == 'end' ? w[3] : w[0] == 'restore' ? w[5] : ''; e.append(make('span', `sign ${w[0]} ${last}`, last == 'failed' ? '\\u2717' : last == 'undone' ? 'U' : last == 'aborted' ? 'A' : SIGNS[w[0]], w.join(' ')), make('span', '', saying(w))); } return e; };
const journal = list($('journal'), size, (r, first) => { const k = entry(r), w = words(k), row = make('div', k == now - 1 ? 'now' : k >= now ? 'later' : ''); row.dataset.entry = k + 1; if (first || rows) drawn = at(k + 1); else take(drawn, k);
  row.append(make('span', 'no', String(k + 1))); const n = +w[1] + 1; if (w[0] == 'start' || folded.has(n)) { const b = make('span', 'fold', folded.has(n) ? '+' : '-', (folded.has(n) ? 'show' : 'fold') + ' what is done in place ' + place(n)); b.onclick = e => { e.stopPropagation(); folded.has(n) ? folded.delete(n) : folded.add(n); sift(); }; row.append(b); } else row.append(' ');
  WHO.forEach((_, p) => row.append(lane(p, k, w))); row.onclick = () => go(k + 1); return row; });
// What is seen: of these participants, places and kinds, without what stands in folded places but their ends.
const sift = () => { const [whom, where, what] = ['whom', 'where', 'what'].map(id => $(id).value); rows = null; if (whom || where || what || folded.size) { rows = []; ENTRIES.forEach((_, k) => { const w = words(k), all = rounds(+w[1] + 1);
  if ((!whom || w[2] == whom) && (!where || all.includes(+where)) && (!what || w[0] == what) && !all.some((n, d) => folded.has(n) && (d > 0 || w[0] != 'end'))) rows.push(k); }); } journal.reach(Math.max(0, row_of(Math.max(0, now - 1)))); };
const see = p => { const box = $('journal'), head = $('heads').querySelectorAll('b')[p], edge = head ? $('heads').firstChild.offsetWidth + 16 : 0; if (!head) return; const right = head.offsetLeft + head.offsetWidth;
  if (right > box.scrollLeft + box.clientWidth) box.scrollLeft = right - box.clientWidth; if (head.offsetLeft < box.scrollLeft + edge) box.scrollLeft = head.offsetLeft - edge; };
const find = (way, good) => { for (let k = now - 1 + way; k >= 0 && k < ENTRIES.length; k += way) if (good(k)) return go(k + 1); };
const freed = p => { const s = at(now); for (let n = now; n < ENTRIES.length; n++) { take(s, n); if (s.who[p][3] < 3) return go(n + 1); } };
const fill = (id, all) => $(id).replaceChildren(...all.map(([name, ...cells]) => { const tr = make('tr', name); cells.forEach(c => tr.append(Array.isArray(c) ? make('td', c[1] ? 'waits' : '', c[0]) : make('td', '', c))); return tr; }));
const go = n => { now = Math.max(0, Math.min(ENTRIES.length, n)); state = at(now); before = at(Math.max(0, now - 1)); $('step').value = now; const w = now ? words(now - 1) : [];
  $('told').textContent = `after ${now} of ${ENTRIES.length} entries` + (now ? ': ' + w.join(' ') : ''); history.replaceState(null, '', '#' + now);
  fill('state', state.who.map((c, p) => [w[2] == WHO[p] ? 'by' : '', WHO[p], place(c[1]), c[2] ? 'line ' + c[2] : '', standing(c)]));
  [...$('state').rows].forEach((tr, p) => { const td = tr.querySelector('.waits'); if (td) { td.title = 'go to the entry that lets it go on'; td.onclick = () => freed(p); } });
  fill('objects', OBJECTS.map((o, k) => [state.values[k] != before.values[k] ? 'changed' : '', o[0], state.values[k], state.values[k] != before.values[k] ? 'was ' + before.values[k] : '']));
  if (size()) journal.reach(Math.max(0, row_of(Math.max(0, now - 1)))); if (now) see(WHO.indexOf(w[2])); const here = state.who.find(c => c[2] && WHO[c[0]] == w[2]) || state.who.find(c => c[2]); if (here) script.reach(here[2] - 1); else script.show(); $('why').hidden = now < ENTRIES.length; };
onkeydown = e => { const way = { ArrowRight: 1, ArrowDown: 1, ArrowLeft: -1, ArrowUp: -1 }[e.key], by = now ? words(now - 1)[2] : ''; if (e.ctrlKey || e.altKey || e.metaKey) return;
  if (way && e.shiftKey) find(way, k => !by || words(k)[2] == by); else if (way && rows) { const r = row_of(now - 1); go(rows[Math.max(0, Math.min(rows.length - 1, rows[r] == now - 1 || way < 0 ? r + way : r + 1))] + 1); } else if (way) go(now + way);
  else if (e.key == 'r') find(1, k => words(k)[0] == 'raise'); else if (e.key == 'f') find(1, k => { const w = words(k); return w[0] == 'restore' && w[5] == 'failed'; }); else if (e.key == 'Home') go(0); else if (e.key == 'End') go(ENTRIES.length); else return; e.preventDefault(); };
onhashchange = () => go(+location.hash.slice(1) || 0); $('step').max = ENTRIES.length; $('step').oninput = () => go(+$('step').value);
// What came of it: the first raise, the first refused put, and how plays ended, those by commit only where they are few.
const came = () => { const all = [], plays = PLACES.filter(it => !it[1]).length, ended = ENTRIES.flatMap((_, k) => { const w = words(k); return w[0] == 'end' && !PLACES[+w[1]][1] ? [[k, w]] : []; }), first = (told, good) => { const k = ENTRIES.findIndex((_, k) => good(words(k))); if (k >= 0) all.push([k, told, words(k).toSpliced(1, 1).join(' ')]); };
  first('first raise', w => w[0] == 'raise'); first('first refused put', w => w[0] == 'putfault' || w[0] == 'restore' && w[5] == 'failed');
  const shown = ended.length > 12 ? ended.filter(([, w]) => w[3] != 'commit') : ended; shown.slice(0, 50).forEach(([k, w]) => all.push([k, 'play ' + place(+w[1] + 1), w.slice(3).join(' ')]));
  if (shown.length > 50) all.push([shown[50][0], `and ${shown.length - 50} more plays`, 'not by commit']); if (ended.length > 12) all.push([ended[0][0], 'plays that ended', `${ended.length - ended.filter(([, w]) => w[3] != 'commit').length} of ${ended.length} by commit`]);
  if (BROKE) all.push([ENTRIES.length - 1, 'the journal', 'breaks off here']); if (ENTRIES.length && ended.length < plays) all.push([ENTRIES.length - 1, 'plays not ended', `${plays - ended.length}`]); return all; };
// A graph, its nodes in layers.
const SVG = 'http://www.w3.org/2000/svg', draw = (tag, has, words) => { const e = document.createElementNS(SVG, tag); for (const k in has) e.setAttribute(k, has[k]); if (words) e.append(words); return e; };
GRAPHS.forEach(([title, nodes, edges]) => { const right = Math.max(0, ...nodes.map(n => n[1] + n[2])), low = Math.max(0, ...nodes.map(n => n[0])), svg = draw('svg', { viewBox: `-8 0 ${right + 16} ${low * 64}`, width: right + 16, height: low * 64, role: 'img' }); svg.append(draw('title', {}, title));
  edges.forEach(([up, down, dashed, label]) => { const [a, b] = [nodes[up], nodes[down]], x = a[1] + a[2] / 2, y = a[0] * 64 - 16, u = b[1] + b[2] / 2, v = b[0] * 64 - 44; svg.append(draw('path', { d: `M${x} ${y}C${x} ${y + 18} ${u} ${v - 18} ${u} ${v}m-3 -6l3 6l3 -6`, class: dashed ? 'dashed' : '' })); if (label) svg.append(draw('text', { x: (x + u) / 2, y: (y + v) / 2 + 4 }, label)); });
  nodes.forEach(([layer, left, width, label, more]) => { svg.append(draw('rect', { x: left, y: layer * 64 - 44, width, height: 28, rx: 4 }), draw('text', { x: left + width / 2, y: layer * 64 - (more ? 32 : 26) }, label)); if (more) svg.append(draw('text', { x: left + width / 2, y: layer * 64 - 20 }, more)); }); $('graphs').append(make('h2', '', title), svg); });
$('file').textContent = text(FILE); document.title = text(FILE); $('status').textContent = BROKE ? `breaks off behind entry ${ENTRIES.length}` : STATUS; $('status').className = BROKE || /^(legal|accepted)/.test(STATUS) ? '' : 'bad'; $('table').textContent = TABLE; $('why').textContent = text(WHY);
const choose = (id, all) => { all.forEach(([value, name]) => { const o = make('option', '', name); o.value = value; $(id).append(o); }); $(id).onchange = sift; };
choose('whom', WHO.map(n => [n, n])); choose('where', PLACES.map((_, n) => [n + 1, place(n + 1)])); choose('what', Object.keys(SIGNS).map(n => [n, n])); WHO.forEach((n, p) => { const b = make('b', '', n); b.style.width = wide(p); if (!p) $('heads').append(make('span', 'no', ' '), ' '); $('heads').append(b); });
if (!ENTRIES.length && !WHO.length) $('after').hidden = true; { const all = came(); fill('ends', all.map(([, ...it]) => ['', ...it])); [...$('ends').rows].forEach((tr, r) => tr.onclick = () => go(all[r][0] + 1)); $('come').hidden = !all.length; }
go(+location.hash.slice(1) || (BROKE ? ENTRIES.length : 0)); script.show(); journal.show();
</script>
</html>
";
