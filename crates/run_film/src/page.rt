//! A page that holds a film, with its controls.
ghost use Rattle.std.specs.Prelude.{◌≡◌, ◌++◌, [], IfOk, OnOk, codes, map, string_bytes};
ghost use Rattle.svg_drawing.specs.Drawn.{note_shown, shown_of};
ghost use Rattle.svg_drawing.specs.Grouped.{grouped_of};
ghost use Rattle.run_film.specs.Beats.{film_of};
ghost use Rattle.run_film.specs.Pages.{counts_said, event_said, step_shown, steps_shown};
ghost use Rattle.run_film.specs.Pages.{HoldsSteps, IsPageHead};

use crate::pace::Shown;
use run_recording::{EventLine, Still};
use std::alloc::{AllocError, Global};
use std::fmt::Write;
use svg_drawing::{Element, Fixed, Group};

/// The script of the page. It has no character that a text of a page would escape.
const SCRIPT: &str = "\
document.addEventListener('DOMContentLoaded', function () {
  'use strict';
  var film = document.querySelector('svg');
  var steps = Array.prototype.slice.call(document.querySelectorAll('#steps li'));
  var play = document.getElementById('play');
  var slider = document.getElementById('slider');
  var told = document.getElementById('told');
  var beats = steps.map(function (step) { return Number(step.getAttribute('data-beats')); });
  var all = beats.reduce(function (sum, count) { return sum + count; }, 0);
  var length = parseInt(film.querySelector('animate').getAttribute('dur'), 10) / 1000;
  var done = 0;
  // When each step begins, a moment after the film shows it.
  var starts = beats.map(function (count) {
    var start = length * done / all + 0.001;
    done += count;
    return start;
  });
  // The middle of a step's time, in which a dot travels for ten beats at most.
  var middles = beats.map(function (count, step) {
    return starts[step] + length * Math.min(10, count) / all / 2;
  });
  var last = steps.length - 1;
  var at = 0;
  var playing = false;

  // The step that the film shows at a time.
  function stepAt(time) {
    var begun = starts.filter(function (start) { return Math.max(start, time) === time; });
    return Math.max(0, begun.length - 1);
  }

  function say(step) {
    at = step;
    slider.value = step;
    var text = 'Step ' + (step + 1) + ' of ' + steps.length + '. ' + steps[step].textContent;
    slider.setAttribute('aria-valuetext', text);
    told.textContent = text;
  }

  function pause() {
    playing = false;
    film.pauseAnimations();
    play.textContent = 'Play';
    told.setAttribute('aria-live', 'polite');
  }

  function show(step) {
    pause();
    var next = Math.min(last, Math.max(0, step));
    film.setCurrentTime(middles[next]);
    say(next);
  }

  function start() {
    if (at === last) {
      film.setCurrentTime(0);
      say(0);
    }
    playing = true;
    told.setAttribute('aria-live', 'off');
    play.textContent = 'Pause';
    film.unpauseAnimations();
    window.requestAnimationFrame(follow);
  }

  function toggle() {
    if (playing) {
      pause();
    } else {
      start();
    }
  }

  // While the film plays, the words follow it; at the end it stays.
  function follow() {
    if (!playing) {
      return;
    }
    var step = stepAt(film.getCurrentTime());
    if (step !== at) {
      say(step);
    }
    if (step === last) {
      show(last);
    } else {
      window.requestAnimationFrame(follow);
    }
  }

  var keys = {
    ArrowRight: function () { show(at + 1); },
    ArrowLeft: function () { show(at - 1); },
    Home: function () { show(0); },
    End: function () { show(last); },
    ' ': toggle
  };

  slider.max = last;
  play.addEventListener('click', toggle);
  document.getElementById('back').addEventListener('click', function () { show(at - 1); });
  document.getElementById('next').addEventListener('click', function () { show(at + 1); });
  slider.addEventListener('input', function () { show(Number(slider.value)); });
  document.addEventListener('keydown', function (event) {
    // What a button or the slider does with a key by itself.
    var uses = { BUTTON: [' '], INPUT: ['ArrowRight', 'ArrowLeft', 'Home', 'End'] }[event.target.nodeName] || [];
    var own = uses.indexOf(event.key) !== -1;
    if (keys[event.key]) {
      if (!own) {
        event.preventDefault();
        keys[event.key]();
      }
    }
  });
  film.setCurrentTime(0);
  say(0);
  if (window.matchMedia('(prefers-reduced-motion: reduce)').matches) {
    pause();
  } else {
    start();
  }
});
";

/// How the page looks, on light and dark screens.
const STYLE: &str = "\
:root { color-scheme: light dark }
body { font: 16px sans-serif; margin: 1em auto; max-width: 60em; padding: 0 1em }
svg { display: block; height: auto; width: 100% }
div, #told { background: Canvas; position: sticky }
div { bottom: 5em; display: flex; flex-wrap: wrap; gap: 0.5em; padding: 0.5em 0 }
button { font: inherit; min-width: 5em; padding: 0.3em 0.6em }
input { flex: 1 1 20em; min-width: 10em }
#told { bottom: 0; margin: 0; min-height: 5em }
";

/// What comes before the film.
pub fn page_head(alloc: Global) -> Result<Vec<Group>, AllocError>
    ensures { IfOk result (λ groups. IsPageHead (map grouped_of groups.items)) }
{
    let mut groups = Vec::new(alloc);
    groups.push(page_head_group(alloc)?)?;
    Ok(groups)
}

/// The head of the page.
fn page_head_group(alloc: Global) -> Result<Group, AllocError>
    ensures { IfOk result (λ group. (grouped_of group).element ≡ note_shown (codes "head") []) }
{
    let charset = Element::new(alloc, "meta").with(alloc, "charset", "utf-8")?;
    let view = Element::new(alloc, "meta")
        .with(alloc, "name", "viewport")?
        .with(alloc, "content", "width=device-width")?;
    let title = Element::new(alloc, "title").saying("A run of a lock, as a film")?;
    let style = Element::new(alloc, "style").saying(STYLE)?;
    Group::alone(alloc, Element::new(alloc, "head"))
        .holding(charset)?
        .holding(view)?
        .holding(title)?
        .holding(style)
}

/// What comes after the film: the controls, the sentence of the step that is shown, those of all
/// steps, and the script.
pub fn controls(alloc: Global, shown: Shown<'_>) -> Result<Vec<Group>, AllocError>
    ensures { IfOk result (λ groups. HoldsSteps (map grouped_of groups.items) (film_of shown.entry)) }
{
    let mut groups = under_steps(alloc)?;
    groups.push(steps(alloc, shown)?)?;
    Ok(groups)
}

/// The attributes of the sentence of the step that is shown.
const SAID: [Fixed; 3] = [
    Fixed("id", "told"),
    Fixed("role", "status"),
    Fixed("aria-live", "polite"),
];

/// What does not change from film to film.
fn under_steps(alloc: Global) -> Result<Vec<Group>, AllocError> {
    let said = Element::new(alloc, "p").with_all(alloc, &SAID)?;
    let mut groups = Vec::new(alloc);
    groups.push(buttons(alloc)?)?;
    groups.push(Group::alone(alloc, said))?;
    groups.push(Group::alone(alloc, Element::new(alloc, "script").saying(SCRIPT)?))?;
    Ok(groups)
}

/// A button.
fn button(alloc: Global, name: &str, text: &str) -> Result<Element, AllocError> {
    Element::new(alloc, "button")
        .with(alloc, "id", name)?
        .with(alloc, "type", "button")?
        .saying(text)
}

/// The attributes of the slider.
const SLIDER: [Fixed; 5] = [
    Fixed("id", "slider"),
    Fixed("type", "range"),
    Fixed("min", "0"),
    Fixed("value", "0"),
    Fixed("aria-label", "Step"),
];

/// The attributes of the element that holds the controls.
const BAR: [Fixed; 2] = [Fixed("role", "group"), Fixed("aria-label", "Film")];

/// The controls.
fn buttons(alloc: Global) -> Result<Group, AllocError> {
    let slider = Element::new(alloc, "input").with_all(alloc, &SLIDER)?;
    let bar = Element::new(alloc, "div").with_all(alloc, &BAR)?;
    Group::alone(alloc, bar)
        .holding(button(alloc, "play", "Play")?)?
        .holding(button(alloc, "back", "Step back")?)?
        .holding(button(alloc, "next", "Step on")?)?
        .holding(slider)
}

/// The sentences of all stills, with the beats of each.
fn steps(alloc: Global, shown: Shown<'_>) -> Result<Group, AllocError>
    ensures { IfOk result (λ group. grouped_of group ≡ steps_shown (film_of shown.entry)) }
{
    let list = Element::new(alloc, "ol")
        .with(alloc, "id", "steps")?
        .with(alloc, "hidden", "hidden")?;
    let mut group = Group::alone(alloc, list).holding(step(
        alloc,
        shown.opening(),
        shown.beats_at(0),
    )?)?;
    let later = shown.later();
    for place in 0..later.len() {
        let beats = shown.beats_at(place + 1);
        group = group.holding(step(alloc, &later[place], beats)?)?;
    }
    Ok(group)
}

/// The sentence of a still.
fn step(alloc: Global, still: &Still, beats: usize) -> Result<Element, AllocError>
    ensures { IfOk result (λ element. shown_of element ≡ step_shown still.now beats) }
{
    let count = format!(in alloc; "{beats}")?;
    let mut text = String::new(alloc);
    push_event(&mut text, still)?;
    push_counts(&mut text, still)?;
    Element::new(alloc, "li")
        .with(alloc, "data-beats", count.as_str())?
        .saying(text.as_str())
}

/// Adds how many events there were, and the last of them.
fn push_event(text: &mut String, still: &Still) -> Result<(), AllocError>
    ensures { OnOk result (string_bytes text.new ≡ string_bytes text.old ++ event_said still.now) }
{
    match still.event {
        Some(event) => write!(text, "Event {}, {}: ", still.events, EventLine(event)),
        None => text.push_str("The start: "),
    }
}

/// Adds what is counted in a still.
fn push_counts(text: &mut String, still: &Still) -> Result<(), AllocError>
    ensures { OnOk result (string_bytes text.new ≡ string_bytes text.old ++ counts_said still.now) }
{
    let damage = if still.damaged { "damage, " } else { "" };
    let wrong = still.looks.iter().filter(|look| !look.settled).count();
    let (privileged, lending) = (still.privileged, still.lending);
    write!(
        text,
        "{damage}{wrong} wrong, {privileged} privileged, {lending} lending; "
    )?;
    write!(text, "{} sweeps since the last damage.", still.sweeps)
}
