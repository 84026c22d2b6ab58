//! The completions and the manual's page, which `bench/pages` writes of the rows and texts of help.

/// The completions for bash.
pub const BASH: &str = "# Completions of scl for bash.
_scl() {
    local word=${COMP_WORDS[COMP_CWORD]} options values at
    COMPREPLY=()
    case ${COMP_WORDS[COMP_CWORD - 1]} in
        --base) COMPREPLY=($(compgen -f -- \"$word\")); return ;;
        --bound) return ;;
        --bytes) return ;;
        --catalogue) COMPREPLY=($(compgen -f -- \"$word\")); return ;;
        --color) COMPREPLY=($(compgen -W 'auto never always' -- \"$word\")); return ;;
        --compiler) COMPREPLY=($(compgen -W 'gcc g++ clang clang++ cl clang-cl diab tasking' -- \"$word\")); return ;;
        --compiler-version) return ;;
        --cwd) COMPREPLY=($(compgen -f -- \"$word\")); return ;;
        --env) return ;;
        --launcher) return ;;
        --only) COMPREPLY=($(compgen -W 'ok hazard refused' -- \"$word\")); return ;;
        -p) COMPREPLY=($(compgen -f -- \"$word\")); return ;;
    esac
    if [ \"$COMP_CWORD\" = 1 ]; then
        COMPREPLY=($(compgen -W 'explain command check database flags why diff reasons completions man -h --help -V --version' -- \"$word\"))
        return
    fi
    case ${COMP_WORDS[1]} in
        explain) options='--json --cwd --may-dist --bound --bytes --base --keep-shown --env --clear-env --compiler --launcher --multiarch --compiler-version --catalogue -h --help' values='' ;;
        command) options='-0 --strict --color --cwd --may-dist --bound --bytes --base --keep-shown --env --clear-env --compiler --launcher --multiarch --compiler-version --catalogue -h --help' values='' ;;
        check) options='--keep --json --cwd --may-dist --bound --bytes --base --keep-shown --env --clear-env --compiler --launcher --multiarch --compiler-version --catalogue -h --help' values='' ;;
        database) options='--keep --only --json --may-dist --bound --bytes --base --keep-shown --env --clear-env --compiler --launcher --multiarch --compiler-version --catalogue -h --help' values='' ;;
        flags) options='--json --catalogue -h --help' values='gcc g++ clang clang++ cl clang-cl diab tasking' ;;
        why) options='--json -p --may-dist --bound --bytes --base --keep-shown --env --clear-env --compiler --launcher --multiarch --compiler-version --catalogue -h --help' values='' ;;
        diff) options='--json -p --may-dist --bound --bytes --base --keep-shown --env --clear-env --compiler --launcher --multiarch --compiler-version --catalogue -h --help' values='' ;;
        reasons) options='--json --catalogue -h --help' values='' ;;
        completions) options='-h --help' values='bash zsh fish' ;;
        man) options='-h --help' values='' ;;
        *) return ;;
    esac
    for ((at = 2; at < COMP_CWORD; at++)); do
        case ${COMP_WORDS[at]} in
            --base|--bound|--bytes|--catalogue|--color|--compiler|--compiler-version|--cwd|--env|--launcher|--only|-p) ((at++)) ;;
            -*) ;;
            *) return ;;
        esac
    done
    case $word in
        -*) COMPREPLY=($(compgen -W \"$options\" -- \"$word\")) ;;
        *) [ -z \"$values\" ] || COMPREPLY=($(compgen -W \"$values\" -- \"$word\")) ;;
    esac
}
complete -o default -F _scl scl
";

/// The completions for zsh.
pub const ZSH: &str = "#compdef scl
# Completions of scl for zsh.
_scl() {
    local -a commands=(
        'explain:Says what a compile command is, what becomes of it, what it reads and writes, and the command to run in its place'
        'command:Writes the command to run in the place of a compile command'
        'check:Names each hazard of a compile command, where the compiler is known to make something else of the command that is built'
        'database:Answers each entry of a compile database'
        'flags:Lists the flags of the compilers'\\'' tables, or says what one word is'
        'why:Says of the entries of some sources why they can or cannot be cached'
        'diff:Says what two command lines differ in, options, and rows of their keys'
        'reasons:Lists each reason why a command cannot be cached or its result not be kept, and each hazard, with a sentence for people'
        'completions:Writes the completions of this program for a shell'
        'man:Writes the manual page of this program'
    )
    if (( CURRENT == 2 )); then
        _describe command commands
        _arguments '-h[Print help]' '--help[Print help]' '-V[Print version]' '--version[Print version]'
        return
    fi
    local command=$words[2]
    shift words
    (( CURRENT-- ))
    case $command in
        explain) _arguments '--json[Write JSON, an object a line]' '--cwd[The directory that the command is run in, if not this one]:DIR:_files' '--may-dist[The runs of the preprocessor are for a distant compiler]' '--bound[Refuse a command line of more than N words, or one that opens files more than N times, in place of 1000000]:N: ' '--bytes[Refuse a command line of more than N bytes, those of its response files among them, in place of 67108864]:N: ' '*--base[Write keys by this base directory, an absolute path, as in every other checkout (--json); it may be given again]:DIR:_files' '--keep-shown[Keep macros of the command as facts of its key, also those that no source may name (--json)]' '*--env[A variable of the compiler'\\''s environment; it may be given again]:NAME=VALUE: ' '--clear-env[Take no words of CL and _CL_ from this environment]' '--compiler[Read it as this compiler'\\''s, whatever the program is called]:NAME:(gcc g++ clang clang++ cl clang-cl diab tasking)' '*--launcher[Pass over programs of this name, which start the compiler; it may be given again]:NAME: ' '--multiarch[Allow several -arch]' '--compiler-version[The compiler'\\''s version 14 or 12.2 for hazards, 14.0.6 for runs, or a text that names Apple'\\''s]:VERSION: ' '--catalogue[Add what this catalogue says of compilers to the built-in one; an entry takes the place of the built-in one of its name]:FILE:_files' '-h[Print help]' '--help[Print help]' '*::word:_normal' ;;
        command) _arguments '-0[End each word with a NUL, in place of quotes for a shell]' '--strict[Write no command where a hazard concerns the files that it makes]' '--color[When messages of gcc and clang have colours always, as without it; never; auto where they go to a terminal]:WHEN:(auto never always)' '--cwd[The directory that the command is run in, if not this one]:DIR:_files' '--may-dist[The runs of the preprocessor are for a distant compiler]' '--bound[Refuse a command line of more than N words, or one that opens files more than N times, in place of 1000000]:N: ' '--bytes[Refuse a command line of more than N bytes, those of its response files among them, in place of 67108864]:N: ' '*--base[Write keys by this base directory, an absolute path, as in every other checkout (--json); it may be given again]:DIR:_files' '--keep-shown[Keep macros of the command as facts of its key, also those that no source may name (--json)]' '*--env[A variable of the compiler'\\''s environment; it may be given again]:NAME=VALUE: ' '--clear-env[Take no words of CL and _CL_ from this environment]' '--compiler[Read it as this compiler'\\''s, whatever the program is called]:NAME:(gcc g++ clang clang++ cl clang-cl diab tasking)' '*--launcher[Pass over programs of this name, which start the compiler; it may be given again]:NAME: ' '--multiarch[Allow several -arch]' '--compiler-version[The compiler'\\''s version 14 or 12.2 for hazards, 14.0.6 for runs, or a text that names Apple'\\''s]:VERSION: ' '--catalogue[Add what this catalogue says of compilers to the built-in one; an entry takes the place of the built-in one of its name]:FILE:_files' '-h[Print help]' '--help[Print help]' '*::word:_normal' ;;
        check) _arguments '--keep[Say whether the result may be kept under a key, in place of the hazards]' '--json[Write JSON, an object a line]' '--cwd[The directory that the command is run in, if not this one]:DIR:_files' '--may-dist[The runs of the preprocessor are for a distant compiler]' '--bound[Refuse a command line of more than N words, or one that opens files more than N times, in place of 1000000]:N: ' '--bytes[Refuse a command line of more than N bytes, those of its response files among them, in place of 67108864]:N: ' '*--base[Write keys by this base directory, an absolute path, as in every other checkout (--json); it may be given again]:DIR:_files' '--keep-shown[Keep macros of the command as facts of its key, also those that no source may name (--json)]' '*--env[A variable of the compiler'\\''s environment; it may be given again]:NAME=VALUE: ' '--clear-env[Take no words of CL and _CL_ from this environment]' '--compiler[Read it as this compiler'\\''s, whatever the program is called]:NAME:(gcc g++ clang clang++ cl clang-cl diab tasking)' '*--launcher[Pass over programs of this name, which start the compiler; it may be given again]:NAME: ' '--multiarch[Allow several -arch]' '--compiler-version[The compiler'\\''s version 14 or 12.2 for hazards, 14.0.6 for runs, or a text that names Apple'\\''s]:VERSION: ' '--catalogue[Add what this catalogue says of compilers to the built-in one; an entry takes the place of the built-in one of its name]:FILE:_files' '-h[Print help]' '--help[Print help]' '*::word:_normal' ;;
        database) _arguments '--keep[Count what may be kept under a key, and why the rest may not]' '--only[Write only the entries of this kind]:WHAT:(ok hazard refused)' '--json[Write JSON, an object a line]' '--may-dist[The runs of the preprocessor are for a distant compiler]' '--bound[Refuse a command line of more than N words, or one that opens files more than N times, in place of 1000000]:N: ' '--bytes[Refuse a command line of more than N bytes, those of its response files among them, in place of 67108864]:N: ' '*--base[Write keys by this base directory, an absolute path, as in every other checkout (--json); it may be given again]:DIR:_files' '--keep-shown[Keep macros of the command as facts of its key, also those that no source may name (--json)]' '*--env[A variable of the compiler'\\''s environment; it may be given again]:NAME=VALUE: ' '--clear-env[Take no words of CL and _CL_ from this environment]' '--compiler[Read it as this compiler'\\''s, whatever the program is called]:NAME:(gcc g++ clang clang++ cl clang-cl diab tasking)' '*--launcher[Pass over programs of this name, which start the compiler; it may be given again]:NAME: ' '--multiarch[Allow several -arch]' '--compiler-version[The compiler'\\''s version 14 or 12.2 for hazards, 14.0.6 for runs, or a text that names Apple'\\''s]:VERSION: ' '--catalogue[Add what this catalogue says of compilers to the built-in one; an entry takes the place of the built-in one of its name]:FILE:_files' '-h[Print help]' '--help[Print help]' ':file:_files' ;;
        flags) _arguments '--json[Write a JSON document]' '--catalogue[Add what this catalogue says of compilers to the built-in one; an entry takes the place of the built-in one of its name]:FILE:_files' '-h[Print help]' '--help[Print help]' ':compiler word:(gcc g++ clang clang++ cl clang-cl diab tasking)' '*: :_files' ;;
        why) _arguments '--json[Write a JSON document]' '*-p[The folder of compile_commands.json, or a database; this folder if none is named]:BUILD:_files' '--may-dist[The runs of the preprocessor are for a distant compiler]' '--bound[Refuse a command line of more than N words, or one that opens files more than N times, in place of 1000000]:N: ' '--bytes[Refuse a command line of more than N bytes, those of its response files among them, in place of 67108864]:N: ' '*--base[Write keys by this base directory, an absolute path, as in every other checkout (--json); it may be given again]:DIR:_files' '--keep-shown[Keep macros of the command as facts of its key, also those that no source may name (--json)]' '*--env[A variable of the compiler'\\''s environment; it may be given again]:NAME=VALUE: ' '--clear-env[Take no words of CL and _CL_ from this environment]' '--compiler[Read it as this compiler'\\''s, whatever the program is called]:NAME:(gcc g++ clang clang++ cl clang-cl diab tasking)' '*--launcher[Pass over programs of this name, which start the compiler; it may be given again]:NAME: ' '--multiarch[Allow several -arch]' '--compiler-version[The compiler'\\''s version 14 or 12.2 for hazards, 14.0.6 for runs, or a text that names Apple'\\''s]:VERSION: ' '--catalogue[Add what this catalogue says of compilers to the built-in one; an entry takes the place of the built-in one of its name]:FILE:_files' '-h[Print help]' '--help[Print help]' '*:file:_files' ;;
        diff) _arguments '--json[Write a JSON document]' '*-p[The folder of compile_commands.json, or a database; this folder if none is named]:BUILD:_files' '--may-dist[The runs of the preprocessor are for a distant compiler]' '--bound[Refuse a command line of more than N words, or one that opens files more than N times, in place of 1000000]:N: ' '--bytes[Refuse a command line of more than N bytes, those of its response files among them, in place of 67108864]:N: ' '*--base[Write keys by this base directory, an absolute path, as in every other checkout (--json); it may be given again]:DIR:_files' '--keep-shown[Keep macros of the command as facts of its key, also those that no source may name (--json)]' '*--env[A variable of the compiler'\\''s environment; it may be given again]:NAME=VALUE: ' '--clear-env[Take no words of CL and _CL_ from this environment]' '--compiler[Read it as this compiler'\\''s, whatever the program is called]:NAME:(gcc g++ clang clang++ cl clang-cl diab tasking)' '*--launcher[Pass over programs of this name, which start the compiler; it may be given again]:NAME: ' '--multiarch[Allow several -arch]' '--compiler-version[The compiler'\\''s version 14 or 12.2 for hazards, 14.0.6 for runs, or a text that names Apple'\\''s]:VERSION: ' '--catalogue[Add what this catalogue says of compilers to the built-in one; an entry takes the place of the built-in one of its name]:FILE:_files' '-h[Print help]' '--help[Print help]' '*::word:_normal' ;;
        reasons) _arguments '--json[Write a JSON document]' '--catalogue[Add what this catalogue says of compilers to the built-in one; an entry takes the place of the built-in one of its name]:FILE:_files' '-h[Print help]' '--help[Print help]' ;;
        completions) _arguments '-h[Print help]' '--help[Print help]' ':shell:(bash zsh fish)' ;;
        man) _arguments '-h[Print help]' '--help[Print help]' ;;
    esac
}
if [ \"$funcstack[1]\" = _scl ]; then _scl \"$@\"; else compdef _scl scl; fi
";

/// The completions for fish.
pub const FISH: &str = "# Completions of scl for fish.
complete -c scl -n __fish_use_subcommand -f -a explain -d 'Says what a compile command is: what becomes of it, what it reads and writes, and the command to run in its place'
complete -c scl -n __fish_use_subcommand -f -a command -d 'Writes the command to run in the place of a compile command'
complete -c scl -n __fish_use_subcommand -f -a check -d 'Names each hazard of a compile command: where the compiler is known to make something else of the command that is built'
complete -c scl -n __fish_use_subcommand -f -a database -d 'Answers each entry of a compile database'
complete -c scl -n __fish_use_subcommand -f -a flags -d 'Lists the flags of the compilers\\' tables, or says what one word is'
complete -c scl -n __fish_use_subcommand -f -a why -d 'Says of the entries of some sources why they can or cannot be cached'
complete -c scl -n __fish_use_subcommand -f -a diff -d 'Says what two command lines differ in: options, and rows of their keys'
complete -c scl -n __fish_use_subcommand -f -a reasons -d 'Lists each reason why a command cannot be cached or its result not be kept, and each hazard, with a sentence for people'
complete -c scl -n __fish_use_subcommand -f -a completions -d 'Writes the completions of this program for a shell'
complete -c scl -n __fish_use_subcommand -f -a man -d 'Writes the manual page of this program'
complete -c scl -n __fish_use_subcommand -s h -l help -d 'Print help'
complete -c scl -n __fish_use_subcommand -s V -l version -d 'Print version'
complete -c scl -n '__fish_seen_subcommand_from explain' -l json -d 'Write JSON, an object a line'
complete -c scl -n '__fish_seen_subcommand_from explain' -l cwd -r -d 'The directory that the command is run in, if not this one'
complete -c scl -n '__fish_seen_subcommand_from explain' -l may-dist -d 'The runs of the preprocessor are for a distant compiler'
complete -c scl -n '__fish_seen_subcommand_from explain' -l bound -x -d 'Refuse a command line of more than N words, or one that opens files more than N times, in place of 1000000'
complete -c scl -n '__fish_seen_subcommand_from explain' -l bytes -x -d 'Refuse a command line of more than N bytes, those of its response files among them, in place of 67108864'
complete -c scl -n '__fish_seen_subcommand_from explain' -l base -r -d 'Write keys by this base directory, an absolute path, as in every other checkout (--json); it may be given again'
complete -c scl -n '__fish_seen_subcommand_from explain' -l keep-shown -d 'Keep macros of the command as facts of its key, also those that no source may name (--json)'
complete -c scl -n '__fish_seen_subcommand_from explain' -l env -x -d 'A variable of the compiler\\'s environment; it may be given again'
complete -c scl -n '__fish_seen_subcommand_from explain' -l clear-env -d 'Take no words of CL and _CL_ from this environment'
complete -c scl -n '__fish_seen_subcommand_from explain' -l compiler -x -a 'gcc g++ clang clang++ cl clang-cl diab tasking' -d 'Read it as this compiler\\'s, whatever the program is called'
complete -c scl -n '__fish_seen_subcommand_from explain' -l launcher -x -d 'Pass over programs of this name, which start the compiler; it may be given again'
complete -c scl -n '__fish_seen_subcommand_from explain' -l multiarch -d 'Allow several -arch'
complete -c scl -n '__fish_seen_subcommand_from explain' -l compiler-version -x -d 'The compiler\\'s version: 14 or 12.2 for hazards, 14.0.6 for runs, or a text that names Apple\\'s'
complete -c scl -n '__fish_seen_subcommand_from explain' -l catalogue -r -d 'Add what this catalogue says of compilers to the built-in one; an entry takes the place of the built-in one of its name'
complete -c scl -n '__fish_seen_subcommand_from explain' -s h -l help -d 'Print help'
complete -c scl -n '__fish_seen_subcommand_from command' -s 0 -d 'End each word with a NUL, in place of quotes for a shell'
complete -c scl -n '__fish_seen_subcommand_from command' -l strict -d 'Write no command where a hazard concerns the files that it makes'
complete -c scl -n '__fish_seen_subcommand_from command' -l color -x -a 'auto never always' -d 'When messages of gcc and clang have colours: always, as without it; never; auto: where they go to a terminal'
complete -c scl -n '__fish_seen_subcommand_from command' -l cwd -r -d 'The directory that the command is run in, if not this one'
complete -c scl -n '__fish_seen_subcommand_from command' -l may-dist -d 'The runs of the preprocessor are for a distant compiler'
complete -c scl -n '__fish_seen_subcommand_from command' -l bound -x -d 'Refuse a command line of more than N words, or one that opens files more than N times, in place of 1000000'
complete -c scl -n '__fish_seen_subcommand_from command' -l bytes -x -d 'Refuse a command line of more than N bytes, those of its response files among them, in place of 67108864'
complete -c scl -n '__fish_seen_subcommand_from command' -l base -r -d 'Write keys by this base directory, an absolute path, as in every other checkout (--json); it may be given again'
complete -c scl -n '__fish_seen_subcommand_from command' -l keep-shown -d 'Keep macros of the command as facts of its key, also those that no source may name (--json)'
complete -c scl -n '__fish_seen_subcommand_from command' -l env -x -d 'A variable of the compiler\\'s environment; it may be given again'
complete -c scl -n '__fish_seen_subcommand_from command' -l clear-env -d 'Take no words of CL and _CL_ from this environment'
complete -c scl -n '__fish_seen_subcommand_from command' -l compiler -x -a 'gcc g++ clang clang++ cl clang-cl diab tasking' -d 'Read it as this compiler\\'s, whatever the program is called'
complete -c scl -n '__fish_seen_subcommand_from command' -l launcher -x -d 'Pass over programs of this name, which start the compiler; it may be given again'
complete -c scl -n '__fish_seen_subcommand_from command' -l multiarch -d 'Allow several -arch'
complete -c scl -n '__fish_seen_subcommand_from command' -l compiler-version -x -d 'The compiler\\'s version: 14 or 12.2 for hazards, 14.0.6 for runs, or a text that names Apple\\'s'
complete -c scl -n '__fish_seen_subcommand_from command' -l catalogue -r -d 'Add what this catalogue says of compilers to the built-in one; an entry takes the place of the built-in one of its name'
complete -c scl -n '__fish_seen_subcommand_from command' -s h -l help -d 'Print help'
complete -c scl -n '__fish_seen_subcommand_from check' -l keep -d 'Say whether the result may be kept under a key, in place of the hazards'
complete -c scl -n '__fish_seen_subcommand_from check' -l json -d 'Write JSON, an object a line'
complete -c scl -n '__fish_seen_subcommand_from check' -l cwd -r -d 'The directory that the command is run in, if not this one'
complete -c scl -n '__fish_seen_subcommand_from check' -l may-dist -d 'The runs of the preprocessor are for a distant compiler'
complete -c scl -n '__fish_seen_subcommand_from check' -l bound -x -d 'Refuse a command line of more than N words, or one that opens files more than N times, in place of 1000000'
complete -c scl -n '__fish_seen_subcommand_from check' -l bytes -x -d 'Refuse a command line of more than N bytes, those of its response files among them, in place of 67108864'
complete -c scl -n '__fish_seen_subcommand_from check' -l base -r -d 'Write keys by this base directory, an absolute path, as in every other checkout (--json); it may be given again'
complete -c scl -n '__fish_seen_subcommand_from check' -l keep-shown -d 'Keep macros of the command as facts of its key, also those that no source may name (--json)'
complete -c scl -n '__fish_seen_subcommand_from check' -l env -x -d 'A variable of the compiler\\'s environment; it may be given again'
complete -c scl -n '__fish_seen_subcommand_from check' -l clear-env -d 'Take no words of CL and _CL_ from this environment'
complete -c scl -n '__fish_seen_subcommand_from check' -l compiler -x -a 'gcc g++ clang clang++ cl clang-cl diab tasking' -d 'Read it as this compiler\\'s, whatever the program is called'
complete -c scl -n '__fish_seen_subcommand_from check' -l launcher -x -d 'Pass over programs of this name, which start the compiler; it may be given again'
complete -c scl -n '__fish_seen_subcommand_from check' -l multiarch -d 'Allow several -arch'
complete -c scl -n '__fish_seen_subcommand_from check' -l compiler-version -x -d 'The compiler\\'s version: 14 or 12.2 for hazards, 14.0.6 for runs, or a text that names Apple\\'s'
complete -c scl -n '__fish_seen_subcommand_from check' -l catalogue -r -d 'Add what this catalogue says of compilers to the built-in one; an entry takes the place of the built-in one of its name'
complete -c scl -n '__fish_seen_subcommand_from check' -s h -l help -d 'Print help'
complete -c scl -n '__fish_seen_subcommand_from database' -l keep -d 'Count what may be kept under a key, and why the rest may not'
complete -c scl -n '__fish_seen_subcommand_from database' -l only -x -a 'ok hazard refused' -d 'Write only the entries of this kind'
complete -c scl -n '__fish_seen_subcommand_from database' -l json -d 'Write JSON, an object a line'
complete -c scl -n '__fish_seen_subcommand_from database' -l may-dist -d 'The runs of the preprocessor are for a distant compiler'
complete -c scl -n '__fish_seen_subcommand_from database' -l bound -x -d 'Refuse a command line of more than N words, or one that opens files more than N times, in place of 1000000'
complete -c scl -n '__fish_seen_subcommand_from database' -l bytes -x -d 'Refuse a command line of more than N bytes, those of its response files among them, in place of 67108864'
complete -c scl -n '__fish_seen_subcommand_from database' -l base -r -d 'Write keys by this base directory, an absolute path, as in every other checkout (--json); it may be given again'
complete -c scl -n '__fish_seen_subcommand_from database' -l keep-shown -d 'Keep macros of the command as facts of its key, also those that no source may name (--json)'
complete -c scl -n '__fish_seen_subcommand_from database' -l env -x -d 'A variable of the compiler\\'s environment; it may be given again'
complete -c scl -n '__fish_seen_subcommand_from database' -l clear-env -d 'Take no words of CL and _CL_ from this environment'
complete -c scl -n '__fish_seen_subcommand_from database' -l compiler -x -a 'gcc g++ clang clang++ cl clang-cl diab tasking' -d 'Read it as this compiler\\'s, whatever the program is called'
complete -c scl -n '__fish_seen_subcommand_from database' -l launcher -x -d 'Pass over programs of this name, which start the compiler; it may be given again'
complete -c scl -n '__fish_seen_subcommand_from database' -l multiarch -d 'Allow several -arch'
complete -c scl -n '__fish_seen_subcommand_from database' -l compiler-version -x -d 'The compiler\\'s version: 14 or 12.2 for hazards, 14.0.6 for runs, or a text that names Apple\\'s'
complete -c scl -n '__fish_seen_subcommand_from database' -l catalogue -r -d 'Add what this catalogue says of compilers to the built-in one; an entry takes the place of the built-in one of its name'
complete -c scl -n '__fish_seen_subcommand_from database' -s h -l help -d 'Print help'
complete -c scl -n '__fish_seen_subcommand_from flags' -f -a 'gcc g++ clang clang++ cl clang-cl diab tasking'
complete -c scl -n '__fish_seen_subcommand_from flags' -l json -d 'Write a JSON document'
complete -c scl -n '__fish_seen_subcommand_from flags' -l catalogue -r -d 'Add what this catalogue says of compilers to the built-in one; an entry takes the place of the built-in one of its name'
complete -c scl -n '__fish_seen_subcommand_from flags' -s h -l help -d 'Print help'
complete -c scl -n '__fish_seen_subcommand_from why' -l json -d 'Write a JSON document'
complete -c scl -n '__fish_seen_subcommand_from why' -s p -r -d 'The folder of compile_commands.json, or a database; this folder if none is named'
complete -c scl -n '__fish_seen_subcommand_from why' -l may-dist -d 'The runs of the preprocessor are for a distant compiler'
complete -c scl -n '__fish_seen_subcommand_from why' -l bound -x -d 'Refuse a command line of more than N words, or one that opens files more than N times, in place of 1000000'
complete -c scl -n '__fish_seen_subcommand_from why' -l bytes -x -d 'Refuse a command line of more than N bytes, those of its response files among them, in place of 67108864'
complete -c scl -n '__fish_seen_subcommand_from why' -l base -r -d 'Write keys by this base directory, an absolute path, as in every other checkout (--json); it may be given again'
complete -c scl -n '__fish_seen_subcommand_from why' -l keep-shown -d 'Keep macros of the command as facts of its key, also those that no source may name (--json)'
complete -c scl -n '__fish_seen_subcommand_from why' -l env -x -d 'A variable of the compiler\\'s environment; it may be given again'
complete -c scl -n '__fish_seen_subcommand_from why' -l clear-env -d 'Take no words of CL and _CL_ from this environment'
complete -c scl -n '__fish_seen_subcommand_from why' -l compiler -x -a 'gcc g++ clang clang++ cl clang-cl diab tasking' -d 'Read it as this compiler\\'s, whatever the program is called'
complete -c scl -n '__fish_seen_subcommand_from why' -l launcher -x -d 'Pass over programs of this name, which start the compiler; it may be given again'
complete -c scl -n '__fish_seen_subcommand_from why' -l multiarch -d 'Allow several -arch'
complete -c scl -n '__fish_seen_subcommand_from why' -l compiler-version -x -d 'The compiler\\'s version: 14 or 12.2 for hazards, 14.0.6 for runs, or a text that names Apple\\'s'
complete -c scl -n '__fish_seen_subcommand_from why' -l catalogue -r -d 'Add what this catalogue says of compilers to the built-in one; an entry takes the place of the built-in one of its name'
complete -c scl -n '__fish_seen_subcommand_from why' -s h -l help -d 'Print help'
complete -c scl -n '__fish_seen_subcommand_from diff' -l json -d 'Write a JSON document'
complete -c scl -n '__fish_seen_subcommand_from diff' -s p -r -d 'The folder of compile_commands.json, or a database; this folder if none is named'
complete -c scl -n '__fish_seen_subcommand_from diff' -l may-dist -d 'The runs of the preprocessor are for a distant compiler'
complete -c scl -n '__fish_seen_subcommand_from diff' -l bound -x -d 'Refuse a command line of more than N words, or one that opens files more than N times, in place of 1000000'
complete -c scl -n '__fish_seen_subcommand_from diff' -l bytes -x -d 'Refuse a command line of more than N bytes, those of its response files among them, in place of 67108864'
complete -c scl -n '__fish_seen_subcommand_from diff' -l base -r -d 'Write keys by this base directory, an absolute path, as in every other checkout (--json); it may be given again'
complete -c scl -n '__fish_seen_subcommand_from diff' -l keep-shown -d 'Keep macros of the command as facts of its key, also those that no source may name (--json)'
complete -c scl -n '__fish_seen_subcommand_from diff' -l env -x -d 'A variable of the compiler\\'s environment; it may be given again'
complete -c scl -n '__fish_seen_subcommand_from diff' -l clear-env -d 'Take no words of CL and _CL_ from this environment'
complete -c scl -n '__fish_seen_subcommand_from diff' -l compiler -x -a 'gcc g++ clang clang++ cl clang-cl diab tasking' -d 'Read it as this compiler\\'s, whatever the program is called'
complete -c scl -n '__fish_seen_subcommand_from diff' -l launcher -x -d 'Pass over programs of this name, which start the compiler; it may be given again'
complete -c scl -n '__fish_seen_subcommand_from diff' -l multiarch -d 'Allow several -arch'
complete -c scl -n '__fish_seen_subcommand_from diff' -l compiler-version -x -d 'The compiler\\'s version: 14 or 12.2 for hazards, 14.0.6 for runs, or a text that names Apple\\'s'
complete -c scl -n '__fish_seen_subcommand_from diff' -l catalogue -r -d 'Add what this catalogue says of compilers to the built-in one; an entry takes the place of the built-in one of its name'
complete -c scl -n '__fish_seen_subcommand_from diff' -s h -l help -d 'Print help'
complete -c scl -n '__fish_seen_subcommand_from reasons' -l json -d 'Write a JSON document'
complete -c scl -n '__fish_seen_subcommand_from reasons' -l catalogue -r -d 'Add what this catalogue says of compilers to the built-in one; an entry takes the place of the built-in one of its name'
complete -c scl -n '__fish_seen_subcommand_from reasons' -s h -l help -d 'Print help'
complete -c scl -n '__fish_seen_subcommand_from completions' -f -a 'bash zsh fish'
complete -c scl -n '__fish_seen_subcommand_from completions' -s h -l help -d 'Print help'
complete -c scl -n '__fish_seen_subcommand_from man' -s h -l help -d 'Print help'
";

/// The manual's page.
pub const MANUAL: &str = ".TH SCL 1 \"\" \"scl 1.0.0\" \"User Commands\"
.SH NAME
scl \\- Understands the command lines of gcc, clang, cl, clang\\-cl, Diab and TaskingVX
.SH SYNOPSIS
.nf
scl [OPTIONS] <COMMAND>
.fi
.SH DESCRIPTION
Which compiler: by the file name of the first word that is neither a launcher (ccache, sccache, distcc, icecc, recc, buildcache, env, nice, time, or one that \\-\\-launcher names), nor an option of env (\\-u), nice (\\-n) or time before the compiler, nor an assignment (NAME=.., NAME of letters, digits and _); without .exe and a version it ends in clang\\-cl, clang++, clang, g++, gcc, c++ or cc (the whole name, or what follows a \\-), or is cl, dcc or cctc. cc and c++ are gcc and g++ unless \\-\\-compiler says otherwise.
.PP
A response file is read where it is a regular file whose size the system tells, and has 67108864 bytes at most.
.SH COMMANDS
.SS scl explain
Says what a compile command is: what becomes of it, what it reads and writes, and the command to run in its place.
.PP
.nf
scl explain [OPTIONS] <COMPILER WORD>...
.fi
.TP
.B <COMPILER WORD>...
The compiler and its words
.TP
.B \\-\\-json
Write JSON, an object a line
.TP
.B \\-\\-cwd <DIR>
The directory that the command is run in, if not this one
.TP
.B \\-\\-may\\-dist
The runs of the preprocessor are for a distant compiler
.TP
.B \\-\\-bound <N>
Refuse a command line of more than N words, or one that opens files more than N times, in place of 1000000
.TP
.B \\-\\-bytes <N>
Refuse a command line of more than N bytes, those of its response files among them, in place of 67108864
.TP
.B \\-\\-base <DIR>
Write keys by this base directory, an absolute path, as in every other checkout (\\-\\-json); it may be given again
.TP
.B \\-\\-keep\\-shown
Keep macros of the command as facts of its key, also those that no source may name (\\-\\-json)
.TP
.B \\-\\-env <NAME=VALUE>
A variable of the compiler's environment; it may be given again
.TP
.B \\-\\-clear\\-env
Take no words of CL and _CL_ from this environment
.TP
.B \\-\\-compiler <NAME>
Read it as this compiler's, whatever the program is called (gcc, g++, clang, clang++, cl, clang-cl, diab, tasking)
.TP
.B \\-\\-launcher <NAME>
Pass over programs of this name, which start the compiler; it may be given again
.TP
.B \\-\\-multiarch
Allow several \\-arch
.TP
.B \\-\\-compiler\\-version <VERSION>
The compiler's version: 14 or 12.2 for hazards, 14.0.6 for runs, or a text that names Apple's
.TP
.B \\-\\-catalogue <FILE>
Add what this catalogue says of compilers to the built\\-in one; an entry takes the place of the built\\-in one of its name
.TP
.B \\-h, \\-\\-help
Print help
.PP
Ends with status 0 whatever the answer is. A word with a character that cannot be seen stands in $'..'.
.PP
.nf
    scl explain gcc \\-c src/foo.c \\-O2 \\-Iinclude \\-MMD \\-o foo.o
    scl explain \\-\\-json \\-\\-compiler clang \\-\\- /opt/wrapper \\-c foo.c
.fi
.SS scl command
Writes the command to run in the place of a compile command.
.PP
.nf
scl command [OPTIONS] <COMPILER WORD>...
.fi
.TP
.B <COMPILER WORD>...
The compiler and its words
.TP
.B \\-0
End each word with a NUL, in place of quotes for a shell
.TP
.B \\-\\-strict
Write no command where a hazard concerns the files that it makes
.TP
.B \\-\\-color <WHEN>
When messages of gcc and clang have colours: always, as without it; never; auto: where they go to a terminal (auto, never, always)
.TP
.B \\-\\-cwd <DIR>
The directory that the command is run in, if not this one
.TP
.B \\-\\-may\\-dist
The runs of the preprocessor are for a distant compiler
.TP
.B \\-\\-bound <N>
Refuse a command line of more than N words, or one that opens files more than N times, in place of 1000000
.TP
.B \\-\\-bytes <N>
Refuse a command line of more than N bytes, those of its response files among them, in place of 67108864
.TP
.B \\-\\-base <DIR>
Write keys by this base directory, an absolute path, as in every other checkout (\\-\\-json); it may be given again
.TP
.B \\-\\-keep\\-shown
Keep macros of the command as facts of its key, also those that no source may name (\\-\\-json)
.TP
.B \\-\\-env <NAME=VALUE>
A variable of the compiler's environment; it may be given again
.TP
.B \\-\\-clear\\-env
Take no words of CL and _CL_ from this environment
.TP
.B \\-\\-compiler <NAME>
Read it as this compiler's, whatever the program is called (gcc, g++, clang, clang++, cl, clang-cl, diab, tasking)
.TP
.B \\-\\-launcher <NAME>
Pass over programs of this name, which start the compiler; it may be given again
.TP
.B \\-\\-multiarch
Allow several \\-arch
.TP
.B \\-\\-compiler\\-version <VERSION>
The compiler's version: 14 or 12.2 for hazards, 14.0.6 for runs, or a text that names Apple's
.TP
.B \\-\\-catalogue <FILE>
Add what this catalogue says of compilers to the built\\-in one; an entry takes the place of the built\\-in one of its name
.TP
.B \\-h, \\-\\-help
Print help
.PP
Ends with status 10 where the outcome cannot be cached, 11 where nothing is compiled, and 13 where a word holds a NUL; then no command is written. With \\-\\-strict none is written where a hazard concerns the files that are made, and the status is 12: run the command as given. With status 14 the command is written: it may be run, and its result may not be kept in the cache.
.PP
The command is a line for any shell. On a terminal a word with a character that cannot be seen stands in $'..', which bash, zsh and ksh read; with \\-0 each word is written as it is.
.PP
Words before the compiler are left out: run the command in the environment that they make, without CL and _CL_, whose words stand in a command of cl or clang\\-cl. A variable that such a word assigns has that value.
.PP
Commands of gcc and clang force colours. With \\-\\-color never they have none, and with \\-\\-color auto the compiler colours what it writes to a terminal. An option for colours that stands in the line counts before \\-\\-color.
.PP
.nf
    scl command gcc \\-c src/foo.c \\-o foo.o
    scl command \\-\\-color auto gcc \\-c src/foo.c \\-o foo.o
    scl command \\-\\-strict gcc \\-c src/foo.c \\-o foo.o
    scl command \\-0 gcc \\-c src/foo.c | xargs \\-0 env
.fi
.SS scl check
Names each hazard of a compile command: where the compiler is known to make something else of the command that is built.
.PP
.nf
scl check [OPTIONS] <COMPILER WORD>...
.fi
.TP
.B <COMPILER WORD>...
The compiler and its words
.TP
.B \\-\\-keep
Say whether the result may be kept under a key, in place of the hazards
.TP
.B \\-\\-json
Write JSON, an object a line
.TP
.B \\-\\-cwd <DIR>
The directory that the command is run in, if not this one
.TP
.B \\-\\-may\\-dist
The runs of the preprocessor are for a distant compiler
.TP
.B \\-\\-bound <N>
Refuse a command line of more than N words, or one that opens files more than N times, in place of 1000000
.TP
.B \\-\\-bytes <N>
Refuse a command line of more than N bytes, those of its response files among them, in place of 67108864
.TP
.B \\-\\-base <DIR>
Write keys by this base directory, an absolute path, as in every other checkout (\\-\\-json); it may be given again
.TP
.B \\-\\-keep\\-shown
Keep macros of the command as facts of its key, also those that no source may name (\\-\\-json)
.TP
.B \\-\\-env <NAME=VALUE>
A variable of the compiler's environment; it may be given again
.TP
.B \\-\\-clear\\-env
Take no words of CL and _CL_ from this environment
.TP
.B \\-\\-compiler <NAME>
Read it as this compiler's, whatever the program is called (gcc, g++, clang, clang++, cl, clang-cl, diab, tasking)
.TP
.B \\-\\-launcher <NAME>
Pass over programs of this name, which start the compiler; it may be given again
.TP
.B \\-\\-multiarch
Allow several \\-arch
.TP
.B \\-\\-compiler\\-version <VERSION>
The compiler's version: 14 or 12.2 for hazards, 14.0.6 for runs, or a text that names Apple's
.TP
.B \\-\\-catalogue <FILE>
Add what this catalogue says of compilers to the built\\-in one; an entry takes the place of the built\\-in one of its name
.TP
.B \\-h, \\-\\-help
Print help
.PP
Writes a line for each hazard, its name and what happens. Ends with status 12 where there is one, 0 where there is none, 10 where the outcome cannot be cached, 11 where nothing is compiled, 13 where a word holds a NUL, and 14 where no hazard is named and the result may not be kept in the cache. Most hazards are known of gcc, clang and clang\\-cl.
.PP
With \\-\\-keep it writes a line for each row keep, with what it means. Then it ends with status 0 where the result may be kept under a key, 1 where it has none or an option is not known, and 14 where the compiler's rules say that the result may not be kept.
.PP
.nf
    scl check gcc \\-c src/foo.c \\-MD \\-MT one \\-MT two \\-o foo.o
    scl check \\-\\-keep gcc \\-c src/foo.c \\-o foo.o
    scl check \\-\\-json clang \\-c src/foo.c \\-o foo.o
.fi
.SS scl database
Answers each entry of a compile database.
.PP
.nf
scl database [OPTIONS] [FILE]
.fi
.TP
.B [FILE]
The database; \\- is standard input
.TP
.B \\-\\-keep
Count what may be kept under a key, and why the rest may not
.TP
.B \\-\\-only <WHAT>
Write only the entries of this kind (ok, hazard, refused)
.TP
.B \\-\\-json
Write JSON, an object a line
.TP
.B \\-\\-may\\-dist
The runs of the preprocessor are for a distant compiler
.TP
.B \\-\\-bound <N>
Refuse a command line of more than N words, or one that opens files more than N times, in place of 1000000
.TP
.B \\-\\-bytes <N>
Refuse a command line of more than N bytes, those of its response files among them, in place of 67108864
.TP
.B \\-\\-base <DIR>
Write keys by this base directory, an absolute path, as in every other checkout (\\-\\-json); it may be given again
.TP
.B \\-\\-keep\\-shown
Keep macros of the command as facts of its key, also those that no source may name (\\-\\-json)
.TP
.B \\-\\-env <NAME=VALUE>
A variable of the compiler's environment; it may be given again
.TP
.B \\-\\-clear\\-env
Take no words of CL and _CL_ from this environment
.TP
.B \\-\\-compiler <NAME>
Read it as this compiler's, whatever the program is called (gcc, g++, clang, clang++, cl, clang-cl, diab, tasking)
.TP
.B \\-\\-launcher <NAME>
Pass over programs of this name, which start the compiler; it may be given again
.TP
.B \\-\\-multiarch
Allow several \\-arch
.TP
.B \\-\\-compiler\\-version <VERSION>
The compiler's version: 14 or 12.2 for hazards, 14.0.6 for runs, or a text that names Apple's
.TP
.B \\-\\-catalogue <FILE>
Add what this catalogue says of compilers to the built\\-in one; an entry takes the place of the built\\-in one of its name
.TP
.B \\-h, \\-\\-help
Print help
.PP
Each entry has a \"directory\", and \"arguments\" or a \"command\" of shell words; in a directory with a drive or a backslash, of words as Windows splits them. Entries are answered as they are read. With \\-\\-json each answer is an object in a line; otherwise a summary is written, also of the entries before a mistake. With \\-\\-only a line for each entry of that kind comes first. With \\-\\-keep the summary counts what may be kept under a key.
.PP
.nf
    scl database build/compile_commands.json
    scl database \\-\\-json \\-\\-only refused \\- < compile_commands.json
.fi
.SS scl flags
Lists the flags of the compilers' tables, or says what one word is.
.PP
.nf
scl flags [OPTIONS] [COMPILER WORD]...
.fi
.TP
.B [COMPILER WORD]...
The compiler, all of them without; and words of its command line, of which each is explained (gcc, g++, clang, clang++, cl, clang-cl, diab, tasking)
.TP
.B \\-\\-json
Write a JSON document
.TP
.B \\-\\-catalogue <FILE>
Add what this catalogue says of compilers to the built\\-in one; an entry takes the place of the built\\-in one of its name
.TP
.B \\-h, \\-\\-help
Print help
.PP
Writes a line for each flag: how its value stands, its kind, and where its words go. Where a flag takes a value, the place is that with a value that is not refused. Of a WORD that no table has it says where it goes. After each WORD comes a line for each entry of the catalogue that speaks of it in some version of the compiler: what it states, its name, and its sentence. An entry may want more than the WORD. All words after the compiler are its words; options of scl come before it.
.PP
.nf
    scl flags clang
    scl flags gcc \\-MF \\-std=c99
    scl flags \\-\\-json cl /FoX
.fi
.SS scl why
Says of the entries of some sources why they can or cannot be cached.
.PP
.nf
scl why [OPTIONS] <FILE>...
.fi
.TP
.B <FILE>...
A source of an entry: its path, or the last parts of it
.TP
.B \\-\\-json
Write a JSON document
.TP
.B \\-p <BUILD>
The folder of compile_commands.json, or a database; this folder if none is named
.TP
.B \\-\\-may\\-dist
The runs of the preprocessor are for a distant compiler
.TP
.B \\-\\-bound <N>
Refuse a command line of more than N words, or one that opens files more than N times, in place of 1000000
.TP
.B \\-\\-bytes <N>
Refuse a command line of more than N bytes, those of its response files among them, in place of 67108864
.TP
.B \\-\\-base <DIR>
Write keys by this base directory, an absolute path, as in every other checkout (\\-\\-json); it may be given again
.TP
.B \\-\\-keep\\-shown
Keep macros of the command as facts of its key, also those that no source may name (\\-\\-json)
.TP
.B \\-\\-env <NAME=VALUE>
A variable of the compiler's environment; it may be given again
.TP
.B \\-\\-clear\\-env
Take no words of CL and _CL_ from this environment
.TP
.B \\-\\-compiler <NAME>
Read it as this compiler's, whatever the program is called (gcc, g++, clang, clang++, cl, clang-cl, diab, tasking)
.TP
.B \\-\\-launcher <NAME>
Pass over programs of this name, which start the compiler; it may be given again
.TP
.B \\-\\-multiarch
Allow several \\-arch
.TP
.B \\-\\-compiler\\-version <VERSION>
The compiler's version: 14 or 12.2 for hazards, 14.0.6 for runs, or a text that names Apple's
.TP
.B \\-\\-catalogue <FILE>
Add what this catalogue says of compilers to the built\\-in one; an entry takes the place of the built\\-in one of its name
.TP
.B \\-h, \\-\\-help
Print help
.PP
Writes for each entry of a source its outcome in a line, and below it why. Ends with status 5 where an entry is no command line, 4 where a file cannot be read, and 2 where no entry has such a source.
.PP
.nf
    scl why src/foo.c
    scl why \\-p build foo.c bar.c
.fi
.SS scl diff
Says what two command lines differ in: options, and rows of their keys.
.PP
.nf
scl diff [OPTIONS] [A B]...
.fi
.TP
.B [A B]...
Two sources of entries; or, after \\-\\-, two command lines with \\-\\- between them
.TP
.B \\-\\-json
Write a JSON document
.TP
.B \\-p <BUILD>
The folder of compile_commands.json, or a database; this folder if none is named
.TP
.B \\-\\-may\\-dist
The runs of the preprocessor are for a distant compiler
.TP
.B \\-\\-bound <N>
Refuse a command line of more than N words, or one that opens files more than N times, in place of 1000000
.TP
.B \\-\\-bytes <N>
Refuse a command line of more than N bytes, those of its response files among them, in place of 67108864
.TP
.B \\-\\-base <DIR>
Write keys by this base directory, an absolute path, as in every other checkout (\\-\\-json); it may be given again
.TP
.B \\-\\-keep\\-shown
Keep macros of the command as facts of its key, also those that no source may name (\\-\\-json)
.TP
.B \\-\\-env <NAME=VALUE>
A variable of the compiler's environment; it may be given again
.TP
.B \\-\\-clear\\-env
Take no words of CL and _CL_ from this environment
.TP
.B \\-\\-compiler <NAME>
Read it as this compiler's, whatever the program is called (gcc, g++, clang, clang++, cl, clang-cl, diab, tasking)
.TP
.B \\-\\-launcher <NAME>
Pass over programs of this name, which start the compiler; it may be given again
.TP
.B \\-\\-multiarch
Allow several \\-arch
.TP
.B \\-\\-compiler\\-version <VERSION>
The compiler's version: 14 or 12.2 for hazards, 14.0.6 for runs, or a text that names Apple's
.TP
.B \\-\\-catalogue <FILE>
Add what this catalogue says of compilers to the built\\-in one; an entry takes the place of the built\\-in one of its name
.TP
.B \\-h, \\-\\-help
Print help
.PP
Writes the options and the rows of the key that only one of the two has. What the rows ask, such as the contents of files, is not compared: rows that leave the keys equal if the answers are stand apart. Ends with status 0 where the keys can be equal, and 1 where not.
.PP
.nf
    scl diff \\-p build src/a.c src/b.c
    scl diff \\-p build1 \\-p build2
    scl diff \\-\\- gcc \\-c a.c \\-O1 \\-\\- gcc \\-c a.c \\-O2
.fi
.SS scl reasons
Lists each reason why a command cannot be cached or its result not be kept, and each hazard, with a sentence for people.
.PP
.nf
scl reasons [OPTIONS]
.fi
.TP
.B \\-\\-json
Write a JSON document
.TP
.B \\-\\-catalogue <FILE>
Add what this catalogue says of compilers to the built\\-in one; an entry takes the place of the built\\-in one of its name
.TP
.B \\-h, \\-\\-help
Print help
.SS scl completions
Writes the completions of this program for a shell.
.PP
.nf
scl completions [OPTIONS] <SHELL>
.fi
.TP
.B <SHELL>
The shell (bash, zsh, fish)
.TP
.B \\-h, \\-\\-help
Print help
.PP
.nf
    scl completions bash > /usr/share/bash\\-completion/completions/scl
.fi
.SS scl man
Writes the manual page of this program.
.PP
.nf
scl man [OPTIONS]
.fi
.TP
.B \\-h, \\-\\-help
Print help
.PP
.nf
    scl man | man \\-l \\-
.fi
.SH OPTIONS
.TP
.B \\-h, \\-\\-help
Print help
.TP
.B \\-V, \\-\\-version
Print version
.SH EXAMPLES
.nf
    scl explain gcc \\-c src/foo.c \\-O2 \\-Iinclude \\-MMD \\-o foo.o
.fi
.SH EXIT STATUS
0 answered; 1 the keys cannot be equal (diff), or there is no key (check \\-\\-keep); 2 wrong words, or a line of the catalogue is wrong; 3 out of memory; 4 a file cannot be read or the answer not be written; 5 the database is broken, or an entry is not valid (all others are answered); 10 cannot be cached; 11 compiles nothing; 12 a hazard; 13 a word holds a NUL, so no process can be given the command; 14 there is a command, and its result may not be kept in the cache.
.SH SEE ALSO
ccline(1), describe(1), scl\\-explain(1), scl\\-command(1), scl\\-check(1), scl\\-database(1), scl\\-flags(1), scl\\-why(1), scl\\-diff(1), scl\\-reasons(1), scl\\-completions(1), scl\\-man(1)
";
